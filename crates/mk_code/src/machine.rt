ghost use Rattle.std.specs.Prelude.{◌≡◌, ◌+◌, ◌*◌, ◌≤◌, ◌<◌, ◌↔◌, ℕ, List, ◌++◌, length, drop, slice_index, IfOk, IsTrue};
ghost use Rattle.mk_field.specs.Field.{size, image_by};
ghost use Rattle.mk_code.specs.Counting.{Elements};
ghost use Rattle.mk_code.specs.Listing.{FitsAt};
ghost use Rattle.mk_code.specs.Trace.{takes, entry};
ghost use Rattle.mk_code.specs.Machine.{IsProgress, next, stepped, needed, outcome};
ghost use Rattle.mk_code.specs.Used.{words};

use crate::code::Code;
use crate::instr::Instr;
use mk_base::{Bytes, Items, Memory};
use std::alloc::Global;
use std::marker::Model;

/// Whether a step took the word that it was given.
#[derive(Clone, Copy, Debug, PartialEq, Eq)]
pub enum Used {
    /// It took the word.
    Word,
    /// It did not look at the word.
    Nothing,
}

/// A run of a code, which carries out one instruction after the other. It holds the trace so far, and
/// has room for the whole of it.
#[derive(Drop)]
pub struct Machine<'a> {
    code: &'a Code,
    at: usize,
    entries: Vec<u8>,
}

impl<'a> Model for Machine<'a> {
    ghost use Rattle.std.specs.Prelude.{◌≤◌, vec_capacity};
    ghost use Rattle.mk_code.specs.Listing.{IsListing, trace_len};
    ghost use Rattle.mk_code.specs.Machine.{Progress, IsProgress};

    ghost Value = { Progress };

    ghost view = { λ m. record { code = m.code.now; at = m.at; entries = m.entries.items } };

    ghost invariant = { λ m. IsProgress (record { code = m.code.now; at = m.at; entries = m.entries.items }) × IsListing m.code.now × (trace_len m.code.now ≤ vec_capacity m.entries) };
}

impl<'a> Machine<'a> {
    /// A run before its first instruction: its trace so far is the shares of the secrets, secret by
    /// secret, and the public inputs. It takes memory for the whole trace at once.
    pub fn new(
        alloc: Global,
        code: &'a Code,
        publics: &[u8],
        shares: &[u8],
    ) -> Result<Machine<'a>, Memory>
        requires publics { Elements (size code.now.field) code.now.publics publics.now }
        requires shares { Elements (size code.now.field) (code.now.secrets * (code.now.order + 1)) shares.now }
        ensures { IfOk result (λ m. m ≡ record { code = code.entry.now; at = 0; entries = shares.now ++ publics.now }) }
    {
        let mut entries = Vec::with_capacity(alloc, code.trace_len() as usize)?;
        entries.extend_from_slice(shares).unwrap();
        entries.extend_from_slice(publics).unwrap();
        Ok(Machine {
            code,
            at: 0,
            entries,
        })
    }

    /// Begins another run of the same code, in the memory of the run before: its trace so far is the
    /// shares of the secrets, secret by secret, and the public inputs. It takes no memory.
    pub fn restart(&mut self, publics: &[u8], shares: &[u8])
        requires publics { Elements (size self.old.code.field) self.old.code.publics publics.now }
        requires shares { Elements (size self.old.code.field) (self.old.code.secrets * (self.old.code.order + 1)) shares.now }
        ensures { self.new ≡ record { code = self.old.code; at = 0; entries = shares.now ++ publics.now } }
    {
        self.at = 0;
        self.entries.clear();
        self.entries.extend_from_slice(shares).unwrap();
        self.entries.extend_from_slice(publics).unwrap();
    }

    /// Carries out the next instruction, with `word` as the next element of the tape, and answers
    /// whether it took it. It takes no memory.
    pub fn step(&mut self, word: u8) -> Used
        requires left { self.old.at < length self.old.code.instrs }
        requires element { word < size self.old.code.field }
        ensures used { words result ≡ takes (next self.old) }
        ensures stepped { self.new ≡ stepped self.old word }
        ensures needed { needed self.old ≡ words result + needed self.new }
        ensures outcome { (tape : List ℕ) → (words result ≡ 1 → slice_index tape 0 ≡ word) → outcome self.new (drop (words result) tape) ≡ outcome self.old tape }
    {
        let instr = self.code.instrs().as_slice()[self.at];
        let value = self.value(instr, word);
        self.entries.push_reserved(value);
        self.at += 1;
        used_by(instr)
    }

    /// The value of an instruction that fits behind the entries so far.
    fn value(&self, instr: Instr, word: u8) -> u8
        requires fits { FitsAt self.now.code.field (length self.now.code.maps) (length self.now.entries) instr }
        requires element { word < size self.now.code.field }
        ensures value { result ≡ entry self.now.code.field self.now.code.maps instr word self.now.entries }
        ensures element { result < size self.now.code.field }
    {
        let field = self.code.field();
        match instr {
            Instr::Rnd => word,
            Instr::Const { value } => value,
            Instr::Copy { from } => self.read(from),
            Instr::Add { left, right } => field.add(self.read(left), self.read(right)),
            Instr::Mul { left, right } => field.mul(self.read(left), self.read(right)),
            Instr::Sq { from } => field.sq(self.read(from)),
            Instr::Map { map, from } => self.image(map, self.read(from)),
        }
    }

    /// The entry at a position.
    fn read(&self, position: u32) -> u8
        requires { position < length self.now.entries }
        ensures value { result ≡ slice_index self.now.entries position }
        ensures element { result < size self.now.code.field }
    {
        self.entries[position as usize]
    }

    /// The image of an element under the map of this number.
    fn image(&self, map: u32, element: u8) -> u8
        requires { map < length self.now.code.maps }
        ensures value { result ≡ image_by self.now.code.maps map element }
        ensures element { result < size self.now.code.field }
    {
        self.code.maps().as_slice()[map as usize].apply(element)
    }

    /// Whether each instruction is carried out. Then the trace is whole.
    pub fn done(&self) -> bool
        ensures done { IsTrue result ↔ (length self.now.code.instrs ≤ self.now.at) }
        ensures whole { IsTrue result → (tape : List ℕ) → outcome self.now tape ≡ self.now.entries }
        ensures needed { IsTrue result → needed self.now ≡ 0 }
    {
        self.at == self.code.instrs().len()
    }

    /// The trace so far.
    pub fn trace(&self) -> &[u8]
        ensures entries { result.now ≡ self.now.entries }
        ensures progress { IsProgress self.now }
    {
        self.entries.as_slice()
    }

    /// The trace so far, in the place of the run. It takes no memory.
    pub fn into_trace(self) -> Bytes
        ensures entries { result ≡ self.entry.entries }
        ensures progress { IsProgress self.entry }
    {
        let Machine {
            code: _,
            at: _,
            entries,
        } = self;
        Items::from_vec(entries)
    }
}

/// Whether a step of this instruction takes its word: at `Rnd` alone.
fn used_by(instr: Instr) -> Used
    ensures { words result ≡ takes instr }
{
    match instr {
        Instr::Rnd => Used::Word,
        _ => Used::Nothing,
    }
}
