//! Laws of lines and alerts. Each function does nothing, and its contract is the law.
ghost use Rattle.alert_lines.specs.Lines.{NoneGoesOn, SomeGoOn};

/// Where lines make no front of the alerts, no lines behind them make all of them. Where they make
/// one, some do.
pub fn fronts_decide()
    ensures none { NoneGoesOn }
    ensures some { SomeGoOn }
{}
