//! What is known of a service by what its calls have answered.
ghost use Rattle.std.specs.Prelude.{◌≡◌, ◌<◌, ◌^◌, nat_lt};

use std::marker::Model;

/// The most calls that may be made on a service.
const MOST: u64 = 1 << 48;

/// What is known of a service by what its calls have answered.
#[derive(Drop)]
pub struct Known {
    calls: u64,
    is_settled: bool,
    is_opened: bool,
    incarnation: u64,
    first: bool,
    second: bool,
}

impl Model for Known {
    ghost use Rattle.service_tests.specs.Facts.{Facts};

    ghost Value = { Facts };

    ghost view = { λ k. record {
      calls = k.calls;
      is_settled = k.is_settled;
      is_opened =
          k.is_opened;
      incarnation = k.incarnation;
      first = k.first;
      second = k.second;
    } };
}

impl Known {
    ghost use Rattle.service_tests.specs.Facts.{none_called, lives_at, with_living, called, worked, stopped, crashed, opened};

    /// Of a service on which no call was made.
    pub fn new() -> Known
        ensures { result ≡ none_called }
    {
        Known {
            calls: 0,
            is_settled: true,
            is_opened: false,
            incarnation: 0,
            first: false,
            second: false,
        }
    }

    /// One more call may be made.
    pub fn may_call(&self) -> bool
        ensures { result ≡ nat_lt self.now.calls (2 ^ 48) }
    {
        self.calls < MOST
    }

    pub fn is_settled(&self) -> bool
        ensures { result ≡ self.now.is_settled }
    {
        self.is_settled
    }

    pub fn is_opened(&self) -> bool
        ensures { result ≡ self.now.is_opened }
    {
        self.is_opened
    }

    pub fn incarnation(&self) -> u64
        ensures { result ≡ self.now.incarnation }
    {
        self.incarnation
    }

    /// Whether a connection lives.
    pub fn lives(&self, connection: u64) -> bool
        ensures { result ≡ lives_at self.now connection }
    {
        if connection == 1 {
            self.first
        } else {
            connection == 2 && self.second
        }
    }

    pub fn set(&mut self, connection: u64, lives: bool)
        ensures { self.new ≡ with_living connection lives self.old }
    {
        if connection == 1 {
            self.first = lives;
        }
        if connection == 2 {
            self.second = lives;
        }
    }

    pub fn called(&mut self)
        requires { self.old.calls < 2 ^ 48 }
        ensures { self.new ≡ called self.old }
    {
        self.calls += 1;
    }

    pub fn worked(&mut self)
        requires { self.old.calls < 2 ^ 48 }
        ensures { self.new ≡ worked self.old }
    {
        self.calls += 1;
        self.is_settled = false;
    }

    pub fn stopped(&mut self)
        requires { self.old.calls < 2 ^ 48 }
        ensures { self.new ≡ stopped self.old }
    {
        self.calls += 1;
        self.is_settled = false;
        self.first = false;
        self.second = false;
    }

    pub fn crashed(&mut self, may_change: bool)
        requires { self.old.calls < 2 ^ 48 }
        ensures { self.new ≡ crashed may_change self.old }
    {
        self.calls += 1;
        self.is_settled = true;
        self.is_opened = false;
        if may_change {
            self.incarnation = 0;
        }
        self.first = false;
        self.second = false;
    }

    pub fn opened(&mut self, incarnation: u64)
        requires { self.old.calls < 2 ^ 48 }
        ensures { self.new ≡ opened incarnation self.old }
    {
        self.calls += 1;
        self.is_settled = false;
        self.is_opened = true;
        self.incarnation = incarnation;
    }
}
