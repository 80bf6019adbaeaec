// Reads a sheet from standard input and writes what is printed of it: `print_read` says what that is.
#![tactic(auto)]

ghost use Rattle.std.specs.Prelude.{IfSome, OnOk, take};
ghost use Rattle.std.specs.Io.KnownBytes.{Appends};
ghost use Rattle.printing.specs.Printed.{printed};

use std::io;
use std::io::{Read, Write};

// Writes the text of the bytes that were read. Apart from the arrays themselves: in one function with them the bounds of the text take more stack than the checker has.
fn write_text<W: Write>(
    space: &[u8; printing::READ],
    got: usize,
    floats: &mut [f64; printing::FLOATS],
    words: &mut [u32; printing::WORDS],
    path: &mut [f64; printing::PATH],
    out: &mut [u8; printing::TEXT],
    writer: &mut W,
) -> io::Result<()>
    ensures { OnOk result (Appends (W.contents writer.old) (W.contents writer.new) (printed (take got space.now))) }
{
    let end = printing::print_read(space, got, floats, words, path, out);
    writer.write_all(&out[..end])
}

// The same, on buffers of its own. The space and how many bytes were read into it go on as `print_read` takes them.
fn print_space<W: Write>(space: &[u8; printing::READ], got: usize, writer: &mut W) -> io::Result<()>
    ensures { OnOk result (Appends (W.contents writer.old) (W.contents writer.new) (printed (take got space.now))) }
{
    let mut floats = [0.0; printing::FLOATS];
    let mut words = [0u32; printing::WORDS];
    let mut path = [0.0; printing::PATH];
    let mut out = [0u8; printing::TEXT];
    write_text(
        space,
        got,
        &mut floats,
        &mut words,
        &mut path,
        &mut out,
        writer,
    )
}

// Reads the input, up to one byte more than a sheet may have, and writes what is printed of it.
pub fn print_from<R: Read, W: Write>(reader: &mut R, writer: &mut W) -> io::Result<()>
    ensures { OnOk result (IfSome (R.remaining reader.old) (λ sheet. Appends (W.contents writer.old) (W.contents writer.new) (printed sheet))) }
{
    let mut space = reading::zeros::<{ printing::READ }>();
    let got = reading::read_full(reader, &mut space)?;
    print_space(&space, got, writer)
}

// The same of standard input, onto standard output.
pub fn print_input(rt: &(impl Input + Print)) -> io::Result<()> {
    print_from(&mut rt.reader(), &mut io::writer(rt))
}
