ghost use Rattle.std.specs.Prelude.{◌≡◌, ◌≤◌, ◌++◌, IfOk, OnOk, string_bytes, flat_map};
ghost use Rattle.mk_ast.specs.declared.tree.Program.{Program};
ghost use Rattle.mk_ast.specs.Canonical.{ended};
ghost use Rattle.mk_gen.specs.Generated.{declaration_lines, generated, IsGenerated};

use mk_base::{Bytes, Items, Memory};
use std::alloc::{AllocError, Global};

/// The text with a loop of `n` turns, from 1 to 3,276. `Memory` comes where memory is wanted and not found.
pub fn gen_text(alloc: Global, n: u32) -> Result<Bytes, Memory>
    requires some { 1 ≤ n }
    requires few { n ≤ 3276 }
    ensures text { IfOk result (λ bytes. bytes ≡ generated n) }

    // So it spells a program that is well typed and whose execution comes to its end.
    ensures program { IfOk result (λ _. (p : Program) × IsGenerated n p) }
{
    let mut text = String::new(alloc);
    push_text(&mut text, n)?;
    Items::try_from_vec(text.into_bytes())
}

/// Appends the lines.
fn push_text(text: &mut String, n: u32) -> Result<(), AllocError>
    ensures { OnOk result (string_bytes text.new ≡ string_bytes text.old ++ generated n) }
{
    push_declarations(text)?;
    write!(text, "for i in 0..{n} {{\n")?;
    push_line(text, "  a = x[i % 16] + y[5 * i % 16];")?;
    push_line(text, "  y[i % 16] = a * m(a) + sq(y[(i + 1) % 16]);")?;
    push_line(text, "}")
}

/// Appends the lines in front of the loop.
fn push_declarations(text: &mut String) -> Result<(), AllocError>
    ensures { OnOk result (string_bytes text.new ≡ string_bytes text.old ++ flat_map ended declaration_lines) }
{
    push_line(text, "field gf256;")?;
    push_line(
        text,
        "map m = 0x1f, 0x3e, 0x7c, 0xf8, 0xf1, 0xe3, 0xc7, 0x8f;",
    )?;
    push_line(text, "secret x[16];")?;
    push_line(text, "local secret a;")?;
    push_line(text, "output y[16];")
}

/// Appends a line and its line feed.
fn push_line(text: &mut String, line: &str) -> Result<(), AllocError>
    ensures { OnOk result (string_bytes text.new ≡ string_bytes text.old ++ ended line.now) }
{
    text.push_str(line)?;
    text.push_str("\n")
}
