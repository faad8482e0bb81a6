// Scans texts that are written here, and every byte by itself and in two places, and writes what each scan says. The
// lines are held to those that the documents give.
#![tactic(auto)]

use lexer::Text;
use lexer_show::show;
use std::io;
use std::io::Write;

// Texts with no fault 2.
fn statements<W: Write>(out: &mut W) -> io::Result<()> {
    show(out, b"")?;
    show(out, b" \t\r\n")?;
    show(out, b"; ( ! \"\n ;)")?;
    show(out, b"(user u)(role a)\n(role b)")?;
    show(out, b"(a(b)c)((d)e)")?;
    show(out, b"()")?;
    show(out, b"(All U1 _ a-1_)")
}

// A wrong byte: at the byte, also right after a good name and after other faults.
fn wrong_bytes<W: Write>(out: &mut W) -> io::Result<()> {
    show(out, b"(role a!b)")?;
    show(out, b"(role a)(role a)!")?;
    show(out, b"(\x0b)")?;
    show(out, b"(a\x0cb)")?;
    show(out, b"(\x00)")?;
    show(out, b"(a/b)")?;
    show(out, b"(\"a\")")?;
    show(out, b"(a\xff)")
}

// A name that starts with a digit or `-`: at its first byte.
fn bad_names<W: Write>(out: &mut W) -> io::Result<()> {
    show(out, b"(1a)")?;
    show(out, b"(-)")?;
    show(out, b"( -a)")?;
    show(out, b"(1a!)")?;
    show(out, b"(a 1!)")?;
    show(out, b"1a!")
}

// Dots between the parts of a name and in front of it, and however many parts.
fn dots<W: Write>(out: &mut W) -> io::Result<()> {
    show(out, b"(role a.b)")?;
    show(out, b"(role .a.b-1._c)")?;
    show(out, b"(a .b)")?;
    show(out, b"(a;..\n)")?;
    show(out, b"(a.b.c.d.e.f.g.h.i.j)")
}

// Any other dot: at the first byte of the name, which is the dot where one is in front.
fn other_dots<W: Write>(out: &mut W) -> io::Result<()> {
    show(out, b"(role a..b)")?;
    show(out, b"(role a.)")?;
    show(out, b"(role .)")?;
    show(out, b"(role ..a)")?;
    show(out, b"(role .1)")?;
    show(out, b"(role a.1b)")?;
    show(out, b"(role 1.a)")?;
    show(out, b"(roleallow .a. b)")
}

// The lowest place, be there a wrong byte, a blank or a comment after the dot, or the end of the text; and dots
// outside parentheses.
fn dots_then<W: Write>(out: &mut W) -> io::Result<()> {
    show(out, b"(role a.!)")?;
    show(out, b"(role a!.b)")?;
    show(out, b"(role a.")?;
    show(out, b"(role a.b")?;
    show(out, b"(a. b)")?;
    show(out, b"(a.;\n)")?;
    show(out, b"() .")
}

// 64 bytes and 65, without a dot in front: dots between parts count.
fn long_dotted_names<W: Write>(out: &mut W) -> io::Result<()> {
    show(
        out,
        b"( .aaaaaaaaaaaaaaaaaaaaaaaaaaaaaaaaaaaaaaaaaaaaaaaaaaaaaaaaaaaaaaaa)",
    )?;
    show(
        out,
        b"( .aaaaaaaaaaaaaaaaaaaaaaaaaaaaaaaaaaaaaaaaaaaaaaaaaaaaaaaaaaaaaaaaa)",
    )?;
    show(
        out,
        b"( a.bbbbbbbbbbbbbbbbbbbbbbbbbbbbbbbbbbbbbbbbbbbbbbbbbbbbbbbbbbbbbb)",
    )?;
    show(
        out,
        b"( a.bbbbbbbbbbbbbbbbbbbbbbbbbbbbbbbbbbbbbbbbbbbbbbbbbbbbbbbbbbbbbbb)",
    )
}

// 64 bytes and 65: at the first byte of the name, unless a wrong byte comes first.
fn long_names<W: Write>(out: &mut W) -> io::Result<()> {
    show(
        out,
        b"( aaaaaaaaaaaaaaaaaaaaaaaaaaaaaaaaaaaaaaaaaaaaaaaaaaaaaaaaaaaaaaaa)",
    )?;
    show(
        out,
        b"( aaaaaaaaaaaaaaaaaaaaaaaaaaaaaaaaaaaaaaaaaaaaaaaaaaaaaaaaaaaaaaaaa)",
    )?;
    show(
        out,
        b"( aaaaaaaaaaaaaaaaaaaaaaaaaaaaaaaaaaaaaaaaaaaaaaaaaaaaaaaaaaaaaaaa!)",
    )?;
    show(
        out,
        b"( aaaaaaaaaaaaaaaaaaaaaaaaaaaaaaaaaaaaaaaaaaaaaaaaaaaaaaaaaaaaaaaaa!)",
    )?;
    show(
        out,
        b"( aaaaaaaaaaaaaaaaaaaaaaaaaaaaaaaaaaaaaaaaaaaaaaaaaaaaaaaaaaaaaaaa",
    )?;
    show(
        out,
        b"( aaaaaaaaaaaaaaaaaaaaaaaaaaaaaaaaaaaaaaaaaaaaaaaaaaaaaaaaaaaaaaaaa",
    )
}

// A name outside parentheses: at its first byte.
fn outside<W: Write>(out: &mut W) -> io::Result<()> {
    show(out, b"() role")?;
    show(out, b"() all")?;
    show(out, b"() -a!")?;
    show(
        out,
        b"() aaaaaaaaaaaaaaaaaaaaaaaaaaaaaaaaaaaaaaaaaaaaaaaaaaaaaaaaaaaaaaaaa",
    )?;
    show(out, b"role")?;
    show(out, b"(a)b")
}

// 32 levels and 33, and parentheses that do not match.
fn levels<W: Write>(out: &mut W) -> io::Result<()> {
    show(
        out,
        b"(((((((((((((((((((((((((((((((())))))))))))))))))))))))))))))))",
    )?;
    show(
        out,
        b"((((((((((((((((((((((((((((((((()))))))))))))))))))))))))))))))))",
    )?;
    show(out, b"((((((((((((((((((((((((((((((((  ")?;
    show(out, b"(")?;
    show(out, b"(()")?;
    show(out, b"())")?;
    show(out, b")")
}

// A comment ends at a line feed or with the text, and holds any byte.
fn comments<W: Write>(out: &mut W) -> io::Result<()> {
    show(out, b"(role a;!(\n)")?;
    show(out, b"(role;\xff\na)")?;
    show(out, b"(role a ;)")?;
    show(out, b"(role a ;\r)")?;
    show(out, b";\n!")?;
    show(out, b"(role a);)")?;
    show(out, b";;\n;")
}

// 65,535 bytes and 65,536: a text that is too long is fault 1, whatever else is wrong in it.
fn lengths<W: Write>(out: &mut W) -> io::Result<()> {
    let blanks = [b' '; 65_536];
    let wrongs = [b'!'; 65_536];
    show(out, &blanks[..Text::MAX])?;
    show(out, &blanks)?;
    show(out, &wrongs[..Text::MAX])?;
    show(out, &wrongs)
}

// Every byte by itself, in parentheses, and within a name.
fn each_byte<W: Write>(out: &mut W) -> io::Result<()> {
    for i in 0..256usize {
        let b = i as u8;
        show(out, &[b])?;
        show(out, &[b'(', b, b')'])?;
        show(out, &[b'(', b'a', b, b'c', b')'])?;
    }
    Ok(())
}

fn main(rt: HostRuntime) -> io::Result<()> {
    let mut out = rt.stdout();
    statements(&mut out)?;
    wrong_bytes(&mut out)?;
    bad_names(&mut out)?;
    dots(&mut out)?;
    other_dots(&mut out)?;
    dots_then(&mut out)?;
    long_dotted_names(&mut out)?;
    long_names(&mut out)?;
    outside(&mut out)?;
    levels(&mut out)?;
    comments(&mut out)?;
    lengths(&mut out)?;
    each_byte(&mut out)?;
    out.flush()
}
