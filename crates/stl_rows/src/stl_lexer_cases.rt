//! Cases for what no clause says: that the definition gives the tokens that the language asks for.
use crate::wants::wants_text;
use s7_base::{NoMemory, Rejection, Token, TokenKind};
use std::alloc::Global;
use std::process::Abort;
use std::test::Fail;
use stl_lexer::tokens;

/// A text, and its tokens as `text_of_tokens` writes them.
type Case = (&'static [u8], &'static [u8]);

/// Words, blanks and lines.
static WORDS: [Case; 7] = [
    (b"", b""),
    (b" \t\r\n\n", b""),
    (b"A I 0.0;", b" WA wI w0 S. W0 S;"),
    (b"aN An_1 1a _ 0b", b" WaN wAn_1 w1a w_ w0b"),
    (b"a\n.b", b" Wa\n S. Wb"),
    (b"a\r\n\r\n b\n", b" Wa\n\n wb"),
    (b"a\tb\rc", b" Wa wb wc"),
];

/// Signs, of which the longest counts.
static SIGNS: [Case; 13] = [
    (
        b": ; , . ( ) [ ] = + - * / < > #",
        b" S: s; s, s. s( s) s[ s] s= s+ s- s* s/ s< s> s#",
    ),
    (b":=..==<>>=<=", b" S:= S.. S== S<> S>= S<="),
    (b"===", b" S== S="),
    (b":==", b" S:= S="),
    (b"...", b" S.. S."),
    (b"<>=", b" S<> S="),
    (b"<=>", b" S<= S>"),
    (b">>=", b" S> S>="),
    (b"=<", b" S= S<"),
    (b"(* / /", b" S( S* s/ s/"),
    (b"L1:= M", b" WL1 S:= wM"),
    (b"L1: = M", b" WL1 S: s= wM"),
    (b"A == 0 ==0", b" WA s== w0 s== W0"),
];

/// Comments, titles and attributes, which are no tokens.
static SKIPPED: [Case; 18] = [
    (b"a// x 'y\nb", b" Wa\n Wb"),
    (b"a //\r\n b", b" Wa\n wb"),
    (b"// \xff $\n;", b"\n S;"),
    (b"TITLE =it's \xfc\nSET;", b"\n WSET S;"),
    (b"title\t\r = $", b""),
    (b"A TITLE = x\nI 0.0;", b" WA\n WI w0 S. W0 S;"),
    (b"TITLE == it's\nSET;", b"\n WSET S;"),
    (b"TITLE =// x\n;", b"\n S;"),
    (b"TITLE\n= Q 4.0;", b" WTITLE\n S= wQ w4 S. W0 S;"),
    (b"TITLE x = y", b" WTITLE wx s= wy"),
    (b"TITLES = x", b" WTITLES s= wx"),
    (b"MY_TITLE = x", b" WMY_TITLE s= wx"),
    (b"\"TITLE\" = x", b" QTITLE s= wx"),
    (b"{ S7_m_c := 'true' }a", b" Wa"),
    (b"+{x}I;", b" S+ WI S;"),
    (b"+{x} I;", b" S+ wI S;"),
    (b"{\xfc\"'//}{}a", b" Wa"),
    (b"{{}a", b" Wa"),
];

/// Names in quotes and texts, each within its line.
static QUOTED: [Case; 6] = [
    (b"\"a b\" \"\" 'x' ''", b" Qa b q tx t"),
    (b"A\"a\".b", b" WA Qa S. Wb"),
    (b"L '//';", b" WL t// S;"),
    (b"'{' \"'\" '\"'", b" T{ q' t\""),
    (b"\"\xfc\" '\xfc'", b" Q\xfc t\xfc"),
    (b"\" a \"\t\"b\"", b" Q a  qb"),
];

fn letter(kind: TokenKind, glued: bool) -> u8 {
    let letter = match kind {
        TokenKind::Word => b'w',
        TokenKind::Quoted => b'q',
        TokenKind::Text => b't',
        TokenKind::Sign => b's',
    };
    if glued {
        letter.to_ascii_uppercase()
    } else {
        letter
    }
}

/// Appends a token after a blank and the letter of its kind, a capital where it is glued.
fn put_token(out: &mut Vec<u8>, token: &Token) -> Result<(), NoMemory> {
    out.push(b' ')?;
    out.push(letter(token.kind, token.glued))?;
    out.extend_from_slice(token.text.as_slice())?;
    Ok(())
}

/// Appends tokens on their lines.
fn put_tokens(out: &mut Vec<u8>, tokens: &[Token]) -> Result<(), NoMemory> {
    let mut line = 1;
    for token in tokens {
        for _ in line..token.line.0 {
            out.push(b'\n')?;
        }
        line = token.line.0;
        put_token(out, token)?;
    }
    Ok(())
}

/// The tokens as they are written.
fn text_of_tokens(alloc: Global, tokens: &[Token]) -> Result<Vec<u8>, NoMemory> {
    let mut out = Vec::new(alloc);
    put_tokens(&mut out, tokens)?;
    Ok(out)
}

/// Tests whether a text has these tokens.
fn wants_shown(
    rt: &impl Abort,
    alloc: Global,
    text: &[u8],
    wanted: &[u8],
) -> Result<(), Rejection> {
    let tokens = tokens(alloc, text)?;
    let found = text_of_tokens(alloc, tokens.as_slice())?;
    wants_text(rt, text, found.as_slice(), wanted);
    Ok(())
}

fn want_tokens(rt: &impl Abort, alloc: Global, rows: &[Case]) -> Result<(), Rejection> {
    for (text, wanted) in rows {
        wants_shown(rt, alloc, text, wanted)?;
    }
    Ok(())
}

#[test]
fn cuts_texts(rt: HostRuntime) -> Result<(), Fail> {
    want_tokens(&rt, rt.alloc(), &WORDS)?;
    want_tokens(&rt, rt.alloc(), &SIGNS)?;
    want_tokens(&rt, rt.alloc(), &SKIPPED)?;
    want_tokens(&rt, rt.alloc(), &QUOTED)?;
    Ok(())
}
