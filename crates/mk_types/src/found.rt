//! The first of the offences that were found.

ghost use Rattle.std.specs.Prelude.{◌≡◌, None};
ghost use Rattle.mk_types.specs.Noted.{earliest, noted};
ghost use Rattle.mk_types.specs.Offences.{when};

use crate::offence::{Offence, OffenceKind};
use mk_base::Place;
use std::marker::Model;

/// The first of the offences that were found so far, if there was one.
#[derive(Drop)]
pub(crate) struct Found {
    first: Option<Offence>,
}

impl Model for Found {
    ghost use Rattle.std.specs.Prelude.{Option};
    ghost use Rattle.mk_types.specs.declared.offence.Offence.{Offence};

    ghost Value = { Option Offence };

    ghost view = { λ f. f.first };
}

impl Found {
    /// Nothing so far.
    pub(crate) fn nothing() -> Found
        ensures { result ≡ None }
    {
        Found { first: None }
    }

    /// The first offence.
    pub(crate) fn first(&self) -> Option<Offence>
        ensures { result ≡ self.now }
    {
        self.first
    }

    /// One more offence.
    fn note(&mut self, offence: Offence)
        ensures { self.new ≡ earliest self.old offence }
    {
        match self.first {
            Some(first) if !offence.is_before(first) => {}
            _ => self.first = Some(offence),
        }
    }

    /// One more offence, where there is one.
    pub(crate) fn note_if(&mut self, wrong: bool, at: Place, kind: OffenceKind)
        ensures { self.new ≡ noted self.old (when wrong at kind) }
    {
        if wrong {
            self.note(Offence { at, kind });
        }
    }
}
