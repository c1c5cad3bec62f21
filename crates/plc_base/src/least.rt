//! The least of the rules that a source breaks, whatever order a pass meets them in.
ghost use Rattle.std.specs.Prelude.{◌≡◌, None, ◌∷◌, []};
ghost use Rattle.plc_base.specs.Least as spec;
ghost use Rattle.plc_base.specs.Least.{Meets};

use crate::{Place, Refusal, Rule, Stop};
use std::marker::Model;

/// The place of a rule in the order of rules.
fn rank(rule: Rule) -> u8
    ensures { result ≡ spec.rank rule }
{
    match rule {
        Rule::L1 => 0,
        Rule::L2 => 1,
        Rule::L3 => 2,
        Rule::L4 => 3,
        Rule::L5 => 4,
        Rule::L6 => 5,
        Rule::G1 => 6,
        Rule::G2 => 7,
        Rule::U1 => 8,
        Rule::NotYet => 9,
        Rule::N1 => 10,
        Rule::N2 => 11,
        Rule::N3 => 12,
        Rule::N4 => 13,
        Rule::N5 => 14,
        Rule::N6 => 15,
        Rule::N7 => 16,
        Rule::N8 => 17,
        Rule::N9 => 18,
        Rule::N10 => 19,
        Rule::N11 => 20,
    }
}

/// Whether one stands before the other, or at its token and earlier in the order of rules.
fn precedes(a: Refusal, b: Refusal) -> bool
    ensures { result ≡ spec.precedes a b }
{
    a.place.token < b.place.token || (a.place.token == b.place.token && rank(a.rule) < rank(b.rule))
}

/// The least broken rule that was met so far.
#[derive(Drop)]
pub struct Least {
    refusal: Option<Refusal>,
}

impl Model for Least {
    ghost use Rattle.std.specs.Prelude.{Option};
    ghost use Rattle.plc_base.specs.declared.refusal.Refusal.{Refusal};

    ghost Value = { Option Refusal };

    ghost view = { λ l. l.refusal };
}

impl Least {
    /// None yet.
    pub fn new() -> Least
        ensures { result ≡ None }
    {
        Least { refusal: None }
    }

    /// This rule is broken there.
    pub fn meet(&mut self, rule: Rule, place: Place)
        ensures { Meets (record { rule = rule; place = place } ∷ []) self.old self.new }
    {
        let met = Refusal { rule, place };
        match self.refusal {
            Some(least) if !precedes(met, least) => {}
            _ => self.refusal = Some(met),
        }
    }

    /// This rule is broken there, unless what it wants holds.
    pub fn want(&mut self, holds: bool, rule: Rule, place: Place)
        ensures { Meets (spec.unless holds rule place) self.old self.new }
    {
        if !holds {
            self.meet(rule, place);
        }
    }

    /// What is answered of the source.
    pub fn judge(&self) -> Result<(), Stop>
        ensures { result ≡ spec.judged self.now }
    {
        match self.refusal {
            None => Ok(()),
            Some(refusal) => Err(Stop::Refused(refusal)),
        }
    }
}
