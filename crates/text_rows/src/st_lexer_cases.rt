//! Cases for what no clause says: that the definition gives the tokens that the language asks for, and that a
//! call answers while there is memory.
use crate::wants::{wants, wants_text};
use memory_areas::AreaName;
use s7_base::{Line, NoMemory, Rejection, Width};
use st_lexer::{
    Direct, Literal, StKind, StToken, StType, direct_at, end_line, literal_at, st_tokens,
};
use std::alloc::Global;
use std::process::Abort;
use std::test::Fail;

/// Texts, and their tokens as `text_of_tokens` writes them.
static TEXTS: [(&[u8], &[u8]); 20] = [
    (b"", b""),
    (
        b"a:=16#fF; (* x *) // y\n%q0.1",
        b" wa s:= l16#fF s;\n d%q0.1",
    ),
    (b"\t\r\n a\n\n b", b"\n wa\n\n wb"),
    (b"TRUE false _x1", b" wTRUE wfalse w_x1"),
    (
        b"16#FFG 5abc 1__0 5_ %MW0x 1=1AND",
        b" l16#FF wG l5 wabc l1 w__0 l5 w_ d%MW0 wx l1 s= l1 wAND",
    ),
    (b"2#12 INT#5x 8#78", b" l2#1 l2 lINT#5 wx l8#7 l8"),
    (b"=>**<<=:==..", b" s= s> s* s* s< s<= s:= s= s.."),
    (b"(* (* *) *)", b" s* s)"),
    (b"(*)*) (* // *) // (* ", b""),
    (b"(*\n\n*) a", b"\n\n wa"),
    (
        b"2147483647 002147483647 2_147_483_647",
        b" l2147483647 l002147483647 l2_147_483_647",
    ),
    (b"DINT#-2147483648", b" lDINT#-2147483648"),
    (b"[0..3000000000]", b" s[ l0 s.. l3000000000 s]"),
    (b".. (* x *)\n 3000000000", b" s..\n l3000000000"),
    (
        b"[5000000000 (**) (16#00)]",
        b" s[ l5000000000 s( l16#00 s) s]",
    ),
    (
        b"16#FFFF_FFFF 2#1_0 8#17 16#0_5",
        b" l16#FFFF_FFFF l2#1_0 l8#17 l16#0_5",
    ),
    (
        b"int#-5 LINT#5 word#16#0005 INT#16#7F BYTE#15 BOOL#1 bool#true BOOL#01",
        b" lint#-5 lLINT#5 lword#16#0005 lINT#16#7F lBYTE#15 lBOOL#1 lbool#true lBOOL#01",
    ),
    (b"INT BOOL INT1", b" wINT wBOOL wINT1"),
    (
        b"INT#32767 INT#-32768 LINT#9223372036854775807 LINT#-9223372036854775808 DINT#2147483647 BYTE#255 WORD#65535 DWORD#4294967295 BOOL#0",
        b" lINT#32767 lINT#-32768 lLINT#9223372036854775807 lLINT#-9223372036854775808 lDINT#2147483647 lBYTE#255 lWORD#65535 lDWORD#4294967295 lBOOL#0",
    ),
    (
        b"%IX0.0 %q1.7 %MB3 %lw4 %MD5 %DBX0.0 %DBB1 %dbw2 %DBD3 %DIX0.1 %DIB1 %DIW2 %did3 %DB5.DBX0.0 %db5.dbb1 %DB5.DBW2 %DB5.DBD3 %MW1_0 %MW010 %I99999999999.9",
        b" d%IX0.0 d%q1.7 d%MB3 d%lw4 d%MD5 d%DBX0.0 d%DBB1 d%dbw2 d%DBD3 d%DIX0.1 d%DIB1 d%DIW2 d%did3 d%DB5.DBX0.0 d%db5.dbb1 d%DB5.DBW2 d%DB5.DBD3 d%MW1_0 d%MW010 d%I99999999999.9",
    ),
];

fn letter(kind: StKind) -> u8 {
    match kind {
        StKind::Word => b'w',
        StKind::Direct => b'd',
        StKind::Literal => b'l',
        StKind::Sign => b's',
    }
}

/// Appends a token after a blank and the letter of its kind.
fn put_token(out: &mut Vec<u8>, token: &StToken) -> Result<(), NoMemory> {
    out.push(b' ')?;
    out.push(letter(token.kind))?;
    out.extend_from_slice(token.text.as_slice())?;
    Ok(())
}

/// Appends tokens on their lines.
fn put_tokens(out: &mut Vec<u8>, tokens: &[StToken]) -> Result<(), NoMemory> {
    let mut line = 1;
    for token in tokens {
        for _ in line..token.line.0 {
            out.push(b'\n')?;
        }
        line = token.line.0;
        put_token(out, token)?;
    }
    Ok(())
}

/// The tokens as they are written.
fn text_of_tokens(alloc: Global, tokens: &[StToken]) -> Result<Vec<u8>, NoMemory> {
    let mut out = Vec::new(alloc);
    put_tokens(&mut out, tokens)?;
    Ok(out)
}

/// Tests whether a text has these tokens.
fn wants_shown(
    rt: &impl Abort,
    alloc: Global,
    text: &[u8],
    wanted: &[u8],
) -> Result<(), Rejection> {
    let tokens = st_tokens(alloc, text)?;
    let found = text_of_tokens(alloc, tokens.as_slice())?;
    wants_text(rt, text, found.as_slice(), wanted);
    Ok(())
}

fn want_tokens(rt: &impl Abort, alloc: Global, rows: &[(&[u8], &[u8])]) -> Result<(), Rejection> {
    for (text, tokens) in rows {
        wants_shown(rt, alloc, text, tokens)?;
    }
    Ok(())
}

#[test]
fn cuts_texts(rt: HostRuntime) -> Result<(), Fail> {
    Ok(want_tokens(&rt, rt.alloc(), &TEXTS)?)
}

const LEAST: Literal = Literal {
    kind: StType::Lint,
    minus: true,
    number: 1 << 63,
    size: 25,
};

const BIT: Direct = Direct {
    area: AreaName::Db,
    block: Some(5),
    width: Width::Bit,
    byte: u32::MAX,
    bit: 7,
    size: 20,
};

fn wants_literal(rt: &impl Abort, text: &[u8], wanted: Option<Literal>) {
    wants(rt, &text, &literal_at(text), &wanted);
}

fn wants_direct(rt: &impl Abort, text: &[u8], wanted: Option<Direct>) {
    wants(rt, &text, &direct_at(text), &wanted);
}

#[test]
fn reads_values(rt: HostRuntime) {
    wants_literal(&rt, b"lint#-9223372036854775808", Some(LEAST));
    wants_literal(&rt, b"INT#x", None);
    wants_direct(&rt, b"%DB5.DBX4294967296.7", Some(BIT));
    wants_direct(&rt, b"%DB5", None);
    wants(&rt, &"the end", &end_line(b"a\n(*\n*)\n"), &Line(4));
}
