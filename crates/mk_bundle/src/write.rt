//! Writing the text of a bundle in pieces. It takes no memory.

ghost use Rattle.std.specs.Prelude.{◌≡◌, ◌≤◌, ◌<◌, ◌+◌, ◌/◌, ◌^◌, ◌++◌, [], ℕ, List, Some, length, IfSome, OnOk, OnErr, flat_map, codes};
ghost use Rattle.std.specs.List.{AllByRecursion};
ghost use Rattle.mk_base.specs.Outside.{Rose};
ghost use Rattle.mk_base.specs.Streams.{TakesPrefix};
ghost use Rattle.mk_base.specs.declared.TheConstants.{TOP_ORDER};
ghost use Rattle.mk_rules.specs.declared.TheConstants.{MOST_BLOCKS, MOST_CLAIMS};
ghost use Rattle.mk_bundle.specs.declared.TheConstants.{TEXT_TOP_ORDER};
ghost use Rattle.mk_rules.specs.Pairs.{IsPair};
ghost use Rattle.mk_bundle.specs.Pairs.{IsRegisterPair};
ghost use Rattle.mk_bundle.specs.Passing.{Sends, Breaks, rest_with, AreWhole};
ghost use Rattle.mk_lines.specs.CodeLines.{out_lines};
ghost use Rattle.mk_field.specs.Maps.{MapFits};
ghost use Rattle.mk_lines.specs.declared.words.TheConstants.{MOST_LINE};
ghost use Rattle.mk_ssa.specs.Widths.{OpFits, OperandFits};
ghost use Rattle.mk_bundle.specs.Text.{number_line, first_lines, head_lines, claimed_text, upper_text, text, register_front, register_text};

use arrayvec::ArrayString;
use mk_base::{Failed, Sink, write_all};
use mk_code::{Code, Instr};
use mk_field::{AddMap, FieldId};
use mk_lines::{
    Line, field_line, push_number, spell_claim, spell_instr, spell_into, spell_map, spell_op,
    spell_out,
};
use mk_regs::{RegCode, RegInstr};
use mk_rules::Cert;
use mk_ssa::{Op, Operand};

/// So many bytes are written at once at most.
const MOST_KEPT: usize = 4096;

/// What is held back until there is more of it.
type Piece = ArrayString<MOST_KEPT>;

/// What has a line of its own.
trait Spell: Copy {
    ghost spelled: { Self → List ℕ };

    ghost fits: { Self → Type 0 };

    /// Makes it this line.
    fn spell(self, line: &mut Line)
        ensures text { line.new.bytes ≡ spelled self }
        ensures fits { fits self };
}

impl Spell for AddMap {
    ghost use Rattle.mk_lines.specs.CodeLines.{map_line};
    ghost use Rattle.mk_field.specs.Maps.{MapFits};

    ghost spelled = { map_line };

    ghost fits = { MapFits };

    fn spell(self, line: &mut Line) {
        spell_map(line, self);
    }
}

impl Spell for Op {
    ghost use Rattle.mk_lines.specs.CertLines.{op_line};
    ghost use Rattle.mk_ssa.specs.Widths.{OpFits};

    ghost spelled = { op_line };

    ghost fits = { OpFits };

    fn spell(self, line: &mut Line) {
        spell_op(line, self);
    }
}

impl Spell for Operand {
    ghost use Rattle.mk_lines.specs.CertLines.{claim_line};
    ghost use Rattle.mk_ssa.specs.Widths.{OperandFits};

    ghost spelled = { claim_line };

    ghost fits = { OperandFits };

    fn spell(self, line: &mut Line) {
        spell_claim(line, self);
    }
}

impl Spell for Instr {
    ghost use Rattle.std.specs.Prelude.{⊤};
    ghost use Rattle.mk_lines.specs.CodeLines.{instr_line};

    ghost spelled = { instr_line };

    ghost fits = { λ _. ⊤ };

    fn spell(self, line: &mut Line) {
        spell_instr(line, self);
    }
}

impl Spell for RegInstr {
    ghost use Rattle.mk_bundle.specs.Text.{register_line};
    ghost use Rattle.mk_bundle.specs.Pairs.{RegisterFits};

    ghost spelled = { register_line };

    ghost fits = { RegisterFits };

    fn spell(self, line: &mut Line) {
        spell_into(line, self.target(), self.operation());
    }
}

/// Puts a short text behind what is held back, which is written before where there is no room for both.
fn put<O: Sink>(out: &mut O, piece: &mut Piece, words: &str) -> Result<(), Failed>
    requires { length words.now ≤ MOST_LINE }
    ensures sends { OnOk result (Sends (O.taken out.old) piece.old.bytes words.now (O.taken out.new) piece.new.bytes) }
    ensures breaks { OnErr result (Breaks (O.taken out.old) piece.old.bytes words.now (O.taken out.new)) }
    ensures failed { OnErr result (Rose (O.faults out.old) (O.faults out.new)) }
    ensures never_falls { O.faults out.old ≤ O.faults out.new }
{
    if piece.remaining_capacity() < words.len() {
        write_all(out, piece.as_str().as_bytes())?;
        piece.clear();
    }
    piece.push_str(words);
    Ok(())
}

/// Puts the lines of these.
fn put_all<O: Sink, T: Spell>(out: &mut O, piece: &mut Piece, items: &[T]) -> Result<(), Failed>
    ensures sends { OnOk result (Sends (O.taken out.old) piece.old.bytes (flat_map T.spelled items.now) (O.taken out.new) piece.new.bytes) }
    ensures fits { OnOk result (AllByRecursion T.fits items.now) }
    ensures breaks { OnErr result (Breaks (O.taken out.old) piece.old.bytes (flat_map T.spelled items.now) (O.taken out.new)) }
    ensures failed { OnErr result (Rose (O.faults out.old) (O.faults out.new)) }
    ensures never_falls { O.faults out.old ≤ O.faults out.new }
{
    let mut line = Line::new();
    for item in items {
        item.spell(&mut line);
        put(out, piece, line.as_str())?;
    }
    Ok(())
}

/// Makes it the first lines, which are short: the form's version, the field, the order and the numbers of
/// inputs.
fn spell_first(
    line: &mut Line,
    version: &str,
    field: FieldId,
    order: u8,
    secrets: u32,
    publics: u32,
)
    requires { length version.now ≤ 16 }
    ensures { line.new.bytes ≡ first_lines version.now field order secrets publics }
{
    line.clear();
    line.push_str(version);
    line.push_str("\n");
    line.push_str(field_line(field));
    line.push_str("order ");
    push_number(line, u32::from(order));
    line.push_str("\nsecrets ");
    push_number(line, secrets);
    line.push_str("\npublics ");
    push_number(line, publics);
    line.push_str("\n");
}

/// Makes it the first lines of a code over positions.
fn spell_head(line: &mut Line, code: &Code)
    ensures { line.new.bytes ≡ head_lines code.now }
{
    let field = code.field();
    spell_first(
        line,
        "mask 1",
        field,
        code.order(),
        code.secrets(),
        code.publics(),
    );
}

/// Makes it the first lines of code over registers.
fn spell_register_head(line: &mut Line, r: &RegCode)
    ensures { line.new.bytes ≡ first_lines (codes "mask 2") r.now.field r.now.order r.now.secrets r.now.publics }
{
    let field = r.field();
    spell_first(line, "mask 2", field, r.order(), r.secrets(), r.publics());
}

/// Makes it the line of the number of registers.
fn spell_registers(line: &mut Line, registers: u32)
    ensures { line.new.bytes ≡ number_line (codes "registers") registers }
{
    line.clear();
    line.push_str("registers ");
    push_number(line, registers);
    line.push_str("\n");
}

/// How many shares an output has.
fn shares_of(code: &Code) -> usize
    ensures shares { result ≡ code.now.order + 1 }
    ensures few { result ≤ TOP_ORDER + 1 }
{
    code.law();
    usize::from(code.order()) + 1
}

/// How many shares an output of code over registers has.
fn register_shares_of(r: &RegCode) -> usize
    ensures shares { result ≡ r.now.order + 1 }
    ensures few { result ≤ TOP_ORDER + 1 }
{
    r.law();
    usize::from(r.order()) + 1
}

/// Puts the lines of the outputs, each of which has the next numbers of its shares.
fn put_outs<O: Sink>(
    out: &mut O,
    piece: &mut Piece,
    shares: usize,
    outs: &[u32],
) -> Result<(), Failed>
    requires some { 1 ≤ shares }
    requires few { shares ≤ TOP_ORDER + 1 }
    requires whole { AreWhole shares outs.now }
    ensures sends { OnOk result (Sends (O.taken out.old) piece.old.bytes (out_lines shares (length outs.now / shares) outs.now) (O.taken out.new) piece.new.bytes) }
    ensures fits { OnOk result (AllByRecursion (λ n. n < 2 ^ 32) outs.now) }
    ensures breaks { OnErr result (Breaks (O.taken out.old) piece.old.bytes (out_lines shares (length outs.now / shares) outs.now) (O.taken out.new)) }
    ensures failed { OnErr result (Rose (O.faults out.old) (O.faults out.new)) }
    ensures never_falls { O.faults out.old ≤ O.faults out.new }
{
    let mut line = Line::new();
    let mut rest = outs;
    for _output in 0..outs.len() / shares {
        let (first, behind) = rest.split_at(shares);
        spell_out(&mut line, first);
        put(out, piece, line.as_str())?;
        rest = behind;
    }
    Ok(())
}

/// Puts the lines before that of the code.
fn put_upper<O: Sink>(
    out: &mut O,
    piece: &mut Piece,
    code: &Code,
    cert: &Cert,
) -> Result<(), Failed>
    ensures sends { OnOk result (Sends (O.taken out.old) piece.old.bytes (upper_text code.now cert.now) (O.taken out.new) piece.new.bytes) }
    ensures blocks { OnOk result (AllByRecursion OpFits cert.now.blocks) }
    ensures claims { OnOk result (AllByRecursion OperandFits cert.now.claims) }
    ensures breaks { OnErr result (Breaks (O.taken out.old) piece.old.bytes (upper_text code.now cert.now) (O.taken out.new)) }
    ensures failed { OnErr result (Rose (O.faults out.old) (O.faults out.new)) }
    ensures never_falls { O.faults out.old ≤ O.faults out.new }
{
    let mut head = Line::new();
    spell_head(&mut head, code);
    put(out, piece, head.as_str())?;
    put_all(out, piece, code.maps().as_slice())?;
    put_all(out, piece, cert.blocks().as_slice())?;
    put_all(out, piece, cert.claims().as_slice())
}

/// Puts the lines up to that of the number of registers.
fn put_register_front<O: Sink>(out: &mut O, piece: &mut Piece, r: &RegCode) -> Result<(), Failed>
    ensures sends { OnOk result (Sends (O.taken out.old) piece.old.bytes (register_front r.now) (O.taken out.new) piece.new.bytes) }
    ensures maps { OnOk result (AllByRecursion MapFits r.now.maps) }
    ensures breaks { OnErr result (Breaks (O.taken out.old) piece.old.bytes (register_front r.now) (O.taken out.new)) }
    ensures failed { OnErr result (Rose (O.faults out.old) (O.faults out.new)) }
    ensures never_falls { O.faults out.old ≤ O.faults out.new }
{
    let mut head = Line::new();
    spell_register_head(&mut head, r);
    put(out, piece, head.as_str())?;
    put_all(out, piece, r.maps().as_slice())?;
    let mut count = Line::new();
    spell_registers(&mut count, r.registers());
    put(out, piece, count.as_str())
}

/// Puts the lines before that of the code, where the code is over registers.
fn put_register_upper<O: Sink>(
    out: &mut O,
    piece: &mut Piece,
    r: &RegCode,
    cert: &Cert,
) -> Result<(), Failed>
    ensures sends { OnOk result (Sends (O.taken out.old) piece.old.bytes (claimed_text (register_front r.now) cert.now) (O.taken out.new) piece.new.bytes) }
    ensures maps { OnOk result (AllByRecursion MapFits r.now.maps) }
    ensures blocks { OnOk result (AllByRecursion OpFits cert.now.blocks) }
    ensures claims { OnOk result (AllByRecursion OperandFits cert.now.claims) }
    ensures breaks { OnErr result (Breaks (O.taken out.old) piece.old.bytes (claimed_text (register_front r.now) cert.now) (O.taken out.new)) }
    ensures failed { OnErr result (Rose (O.faults out.old) (O.faults out.new)) }
    ensures never_falls { O.faults out.old ≤ O.faults out.new }
{
    put_register_front(out, piece, r)?;
    put_all(out, piece, cert.blocks().as_slice())?;
    put_all(out, piece, cert.claims().as_slice())
}

/// Puts the line `code` and those behind it.
fn put_lower<O: Sink, T: Spell>(
    out: &mut O,
    piece: &mut Piece,
    instrs: &[T],
    shares: usize,
    outs: &[u32],
) -> Result<(), Failed>
    requires some { 1 ≤ shares }
    requires few { shares ≤ TOP_ORDER + 1 }
    requires whole { AreWhole shares outs.now }
    ensures sends { OnOk result (Sends (O.taken out.old) piece.old.bytes (rest_with (flat_map T.spelled instrs.now) (out_lines shares (length outs.now / shares) outs.now)) (O.taken out.new) piece.new.bytes) }
    ensures fits { OnOk result (AllByRecursion T.fits instrs.now) }
    ensures outs { OnOk result (AllByRecursion (λ n. n < 2 ^ 32) outs.now) }
    ensures breaks { OnErr result (Breaks (O.taken out.old) piece.old.bytes (rest_with (flat_map T.spelled instrs.now) (out_lines shares (length outs.now / shares) outs.now)) (O.taken out.new)) }
    ensures failed { OnErr result (Rose (O.faults out.old) (O.faults out.new)) }
    ensures never_falls { O.faults out.old ≤ O.faults out.new }
{
    put(out, piece, "code\n")?;
    put_all(out, piece, instrs)?;
    put_outs(out, piece, shares, outs)?;
    put(out, piece, "end\n")
}

/// Writes the bundle text of a code over positions and its certificate, which has version 1, in pieces. The limits are
/// those of the text that the code and the certificate don't keep by themselves. It takes no memory.
pub fn write_bundle<O: Sink>(out: &mut O, code: &Code, cert: &Cert) -> Result<(), Failed>
    requires order { code.now.order ≤ TEXT_TOP_ORDER }
    requires blocks { length cert.now.blocks ≤ MOST_BLOCKS }
    requires claims { length cert.now.claims ≤ MOST_CLAIMS }
    // The pair has a text, and the sink took just that.
    ensures pair { OnOk result (IsPair code.now cert.now) }
    ensures ok { OnOk result (IfSome (O.taken out.old) (λ before. O.taken out.new ≡ Some (before ++ text code.now cert.now))) }

    // A fault comes only where the sink counted one, and the sink then took a prefix of the text.
    ensures failed { OnErr result (Rose (O.faults out.old) (O.faults out.new)) }
    ensures prefix { OnErr result (IfSome (O.taken out.old) (λ before. TakesPrefix before (text code.now cert.now) (O.taken out.new))) }
    ensures never_falls { O.faults out.old ≤ O.faults out.new }
{
    code.law();
    let mut piece = Piece::new();
    put_upper(out, &mut piece, code, cert)?;
    let instrs = code.instrs().as_slice();
    put_lower(
        out,
        &mut piece,
        instrs,
        shares_of(code),
        code.outs().as_slice(),
    )?;
    let held = piece.as_str().as_bytes();
    write_all(out, held)
}

/// Writes the bundle text of code over registers and its certificate, which has version 2 and so every masking order, in
/// pieces. The limits are those of the text that a certificate doesn't keep by itself. It takes no memory.
pub fn write_registers<O: Sink>(out: &mut O, r: &RegCode, cert: &Cert) -> Result<(), Failed>
    requires blocks { length cert.now.blocks ≤ MOST_BLOCKS }
    requires claims { length cert.now.claims ≤ MOST_CLAIMS }
    // The pair has a text, and the sink took just that.
    ensures pair { OnOk result (IsRegisterPair r.now cert.now) }
    ensures ok { OnOk result (IfSome (O.taken out.old) (λ before. O.taken out.new ≡ Some (before ++ register_text r.now cert.now))) }

    // A fault comes only where the sink counted one, and the sink then took a prefix of the text.
    ensures failed { OnErr result (Rose (O.faults out.old) (O.faults out.new)) }
    ensures prefix { OnErr result (IfSome (O.taken out.old) (λ before. TakesPrefix before (register_text r.now cert.now) (O.taken out.new))) }
    ensures never_falls { O.faults out.old ≤ O.faults out.new }
{
    r.law();
    let mut piece = Piece::new();
    put_register_upper(out, &mut piece, r, cert)?;
    let instrs = r.instrs().as_slice();
    put_lower(
        out,
        &mut piece,
        instrs,
        register_shares_of(r),
        r.outs().as_slice(),
    )?;
    let kept = piece.as_str().as_bytes();
    write_all(out, kept)
}
