//! How many alerts the lines so far may be.
ghost use Rattle.std.specs.Prelude.{◌≡◌, ◌++◌, ◌&&◌, ◌||◌, [], ◌∷◌, ℕ, List, false, not, drop, IfOk};
ghost use Rattle.std.specs.List.{list_any};
ghost use Rattle.server_model.specs.meaning.Legal.{Line as Given, lines_stand};
ghost use Rattle.alert_lines.specs.Lines.{standing_of, may_go_on};
ghost use Rattle.alert_lines.specs.Views.{line_as};
ghost use Rattle.alert_lines.specs.InnerFlags.{is_first, flags_after, last_flag};

use std::alloc::Global;
use std::marker::Model;
use svc_values::{NoMemory, Text};

/// A line that was handed to a service, and whether this was answered.
#[derive(Clone, Copy)]
pub struct Line<'a> {
    pub text: &'a Text,
    pub is_answered: bool,
}

/// For each number of first alerts, from none to all of them, whether the lines so far make them.
#[derive(Drop)]
pub struct Standing {
    flags: Vec<bool>,
}

impl Model for Standing {
    ghost use Rattle.std.specs.Prelude.{List, Bool};

    ghost Value = { List Bool };

    ghost view = { λ s. s.flags.items };
}

/// Whether the text is the alert at a place.
fn is_alert(text: &Text, alerts: &[Text], at: usize) -> bool
    ensures { result ≡ is_first text.now (drop at alerts.now) }
{
    match alerts.get(at) {
        Some(alert) => *text == *alert,
        None => false,
    }
}

/// Whether so many alerts may stand after a line: told whether they come by it from one fewer, and
/// whether they might before it.
fn may_stand(came: bool, might: bool, is_answered: bool) -> bool
    ensures { result ≡ (came || (might && not is_answered)) }
{
    came || (might && !is_answered)
}

/// Whether one more alert comes by the line: told whether those before it might stand.
fn comes(might: bool, text: &Text, alerts: &[Text], at: usize) -> bool
    ensures { result ≡ (might && is_first text.now (drop at alerts.now)) }
{
    might && is_alert(text, alerts, at)
}

/// The flags after one line more.
fn go_on(flags: &mut [bool], line: Line<'_>, alerts: &[Text])
    ensures { flags.new ≡ flags_after (line_as line.entry) false flags.old alerts.now }
{
    let mut came = false;
    for (at, flag) in flags.iter_mut().enumerate() {
        let might = *flag;
        *flag = may_stand(came, might, line.is_answered);
        came = comes(might, line.text, alerts, at);
    }
}

fn is_any(flags: &[bool]) -> bool
    ensures { result ≡ list_any (λ flag. flag) flags.now }
{
    flags.iter().any(|flag| *flag)
}

/// The last flag, and false where there is none.
fn last_of(flags: &[bool]) -> bool
    ensures { result ≡ last_flag flags.now }
{
    match flags {
        [.., last] => *last,
        [] => false,
    }
}

impl Standing {
    /// Before the first line.
    pub fn new(alloc: Global, alerts: &[Text]) -> Result<Standing, NoMemory>
        ensures { IfOk result (λ standing. standing ≡ standing_of [] alerts.now) }
    {
        let mut flags = Vec::new(alloc);
        flags.push(true)?;
        for _alert in alerts {
            flags.push(false)?;
        }
        Ok(Standing { flags })
    }

    /// Goes on behind a line, with the same alerts. Linear in their number.
    pub fn add(&mut self, line: Line<'_>, alerts: &[Text])
        ensures { (lines : List Given) → self.old ≡ standing_of lines alerts.now
            → self.new ≡ standing_of (lines ++ line_as line.entry ∷ []) alerts.now }
    {
        self.follow(line, alerts);
    }

    fn follow(&mut self, line: Line<'_>, alerts: &[Text])
        ensures { self.new ≡ flags_after (line_as line.entry) false self.old alerts.now }
    {
        go_on(&mut self.flags, line, alerts);
    }

    /// Whether the lines so far make some first alerts. Linear in the number of alerts.
    pub fn can_stand(&self) -> bool
        ensures { (lines : List Given) (alerts : List (List ℕ))
            → self.now ≡ standing_of lines alerts → result ≡ may_go_on lines alerts }
    {
        is_any(self.flags.as_slice())
    }

    /// Whether the lines so far make all of the alerts.
    pub fn is_whole(&self) -> bool
        ensures { (lines : List Given) (alerts : List (List ℕ))
            → self.now ≡ standing_of lines alerts → result ≡ lines_stand lines alerts }
    {
        last_of(self.flags.as_slice())
    }
}
