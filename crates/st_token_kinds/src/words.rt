//! Words and signs of the language.
ghost use Rattle.std.specs.Prelude.{◌≡◌, map, option_map};
ghost use Rattle.std.specs.List.{find};
ghost use Rattle.s7_base.specs.Tokens.{is_same_word};
ghost use Rattle.st_grammar.specs.Kinds.{fixed_text, word_text, word_named, sign_named};
ghost use Rattle.st_grammar.specs.declared.words.TheConstants.{WORDS, SIGNS};
ghost use Rattle.st_token_kinds.specs.inner.Rows.{word_shown, sign_shown, with_text};

use s7_base::Width;
use st_grammar::{Fixed, Function, Jump, Lead, OneOperand, Word};
use st_lexer::is_same_word;
use st_tree::{BinaryOp, ShiftOp, StType};

/// A reserved word and its spelling.
#[derive(Clone, Copy)]
pub struct WordRow(pub &'static str, pub Word);

/// A sign and its spelling.
#[derive(Clone, Copy)]
pub struct SignRow(pub &'static str, pub Fixed);

/// The table of the reserved words. It has their texts, so that no text is made to look one up.
static WORD_ROWS: [WordRow; 53] = [
    WordRow("VAR_GLOBAL", Word::Fixed(Fixed::VarGlobal)),
    WordRow("VAR_IN_OUT", Word::Fixed(Fixed::VarInOut)),
    WordRow("VAR_TEMP", Word::Fixed(Fixed::VarTemp)),
    WordRow("END_VAR", Word::Fixed(Fixed::EndVar)),
    WordRow("AT", Word::Fixed(Fixed::At)),
    WordRow("ARRAY", Word::Fixed(Fixed::Array)),
    WordRow("OF", Word::Fixed(Fixed::Of)),
    WordRow("PROGRAM", Word::Lead(Lead::Program)),
    WordRow("END_PROGRAM", Word::Fixed(Fixed::EndProgram)),
    WordRow("FUNCTION", Word::Lead(Lead::Function)),
    WordRow("END_FUNCTION", Word::Fixed(Fixed::EndFunction)),
    WordRow("IF", Word::Lead(Lead::If)),
    WordRow("THEN", Word::Fixed(Fixed::Then)),
    WordRow("ELSIF", Word::Fixed(Fixed::Elsif)),
    WordRow("ELSE", Word::Fixed(Fixed::Else)),
    WordRow("END_IF", Word::Fixed(Fixed::EndIf)),
    WordRow("CASE", Word::Lead(Lead::Case)),
    WordRow("END_CASE", Word::Fixed(Fixed::EndCase)),
    WordRow("WHILE", Word::Lead(Lead::While)),
    WordRow("DO", Word::Fixed(Fixed::Do)),
    WordRow("END_WHILE", Word::Fixed(Fixed::EndWhile)),
    WordRow("EXIT", Word::Lead(Lead::Jump(Jump::Exit))),
    WordRow("CONTINUE", Word::Lead(Lead::Jump(Jump::Continue))),
    WordRow("RETURN", Word::Lead(Lead::Jump(Jump::Return))),
    WordRow("TRUE", Word::Truth(true)),
    WordRow("FALSE", Word::Truth(false)),
    WordRow("NOT", Word::Fixed(Fixed::Not)),
    WordRow("AND", Word::Fixed(Fixed::Between(BinaryOp::And))),
    WordRow("XOR", Word::Fixed(Fixed::Between(BinaryOp::Xor))),
    WordRow("OR", Word::Fixed(Fixed::Between(BinaryOp::Or))),
    WordRow("MOD", Word::Fixed(Fixed::Between(BinaryOp::Mod))),
    WordRow("BOOL", Word::Fixed(Fixed::Type(StType::Bool))),
    WordRow("BYTE", Word::Fixed(Fixed::Type(StType::Byte))),
    WordRow("WORD", Word::Fixed(Fixed::Type(StType::Word))),
    WordRow("DWORD", Word::Fixed(Fixed::Type(StType::Dword))),
    WordRow("INT", Word::Fixed(Fixed::Type(StType::Int))),
    WordRow("DINT", Word::Fixed(Fixed::Type(StType::Dint))),
    WordRow("LINT", Word::Fixed(Fixed::Type(StType::Lint))),
    WordRow(
        "BCD_TO_INT",
        Word::Fixed(Fixed::Function(Function::One(OneOperand::BcdToInt))),
    ),
    WordRow(
        "BCD_TO_DINT",
        Word::Fixed(Fixed::Function(Function::One(OneOperand::BcdToDint))),
    ),
    WordRow(
        "AREA_READ_X",
        Word::Fixed(Fixed::Function(Function::One(OneOperand::AreaRead(Width::Bit)))),
    ),
    WordRow(
        "AREA_READ_B",
        Word::Fixed(Fixed::Function(Function::One(OneOperand::AreaRead(Width::Byte)))),
    ),
    WordRow(
        "AREA_READ_W",
        Word::Fixed(Fixed::Function(Function::One(OneOperand::AreaRead(Width::Word)))),
    ),
    WordRow(
        "AREA_READ_D",
        Word::Fixed(Fixed::Function(Function::One(OneOperand::AreaRead(Width::Dword)))),
    ),
    WordRow(
        "SHL",
        Word::Fixed(Fixed::Function(Function::Shift(ShiftOp::Shl))),
    ),
    WordRow(
        "SHR",
        Word::Fixed(Fixed::Function(Function::Shift(ShiftOp::Shr))),
    ),
    WordRow(
        "ROL",
        Word::Fixed(Fixed::Function(Function::Shift(ShiftOp::Rol))),
    ),
    WordRow(
        "ROR",
        Word::Fixed(Fixed::Function(Function::Shift(ShiftOp::Ror))),
    ),
    WordRow("SEL", Word::Fixed(Fixed::Function(Function::Select))),
    WordRow("AREA_WRITE_X", Word::Lead(Lead::AreaWrite(Width::Bit))),
    WordRow("AREA_WRITE_B", Word::Lead(Lead::AreaWrite(Width::Byte))),
    WordRow("AREA_WRITE_W", Word::Lead(Lead::AreaWrite(Width::Word))),
    WordRow("AREA_WRITE_D", Word::Lead(Lead::AreaWrite(Width::Dword))),
];

/// The table of the signs.
static SIGN_ROWS: [SignRow; 19] = [
    SignRow(":=", Fixed::Becomes),
    SignRow(":", Fixed::Colon),
    SignRow(";", Fixed::Semicolon),
    SignRow(",", Fixed::Comma),
    SignRow("(", Fixed::Open),
    SignRow(")", Fixed::Close),
    SignRow("[", Fixed::OpenSquare),
    SignRow("]", Fixed::CloseSquare),
    SignRow("..", Fixed::Dots),
    SignRow("*", Fixed::Between(BinaryOp::Mul)),
    SignRow("/", Fixed::Between(BinaryOp::Div)),
    SignRow("+", Fixed::Between(BinaryOp::Add)),
    SignRow("-", Fixed::Between(BinaryOp::Sub)),
    SignRow("<", Fixed::Between(BinaryOp::Lt)),
    SignRow(">", Fixed::Between(BinaryOp::Gt)),
    SignRow("<=", Fixed::Between(BinaryOp::Le)),
    SignRow(">=", Fixed::Between(BinaryOp::Ge)),
    SignRow("=", Fixed::Between(BinaryOp::Eq)),
    SignRow("<>", Fixed::Between(BinaryOp::Ne)),
];

#[tactic(auto, unfolding(st_grammar::specs::Kinds::word_text))]
fn word_rows() -> &'static [WordRow]
    ensures { map word_shown result.now ≡ map (with_text word_text) WORDS }
{
    &WORD_ROWS
}

fn sign_rows() -> &'static [SignRow]
    ensures { map sign_shown result.now ≡ map (with_text fixed_text) SIGNS }
{
    &SIGN_ROWS
}

fn row_of_word(text: &[u8], rows: &[WordRow]) -> Option<WordRow>
    ensures { result ≡ find (λ row. is_same_word text.now row.0.now) rows.now }
{
    rows.iter().copied().find(|row| is_same_word(text, row.0))
}

fn row_of_sign(text: &[u8], rows: &[SignRow]) -> Option<SignRow>
    ensures { result ≡ find (λ row. is_same_word text.now row.0.now) rows.now }
{
    rows.iter().copied().find(|row| is_same_word(text, row.0))
}

fn word_of(row: Option<WordRow>) -> Option<Word>
    ensures { result ≡ option_map (λ found. (word_shown found).1) row }
{
    match row {
        Some(row) => Some(row.1),
        None => None,
    }
}

fn sign_of(row: Option<SignRow>) -> Option<Fixed>
    ensures { result ≡ option_map (λ found. (sign_shown found).1) row }
{
    match row {
        Some(row) => Some(row.1),
        None => None,
    }
}

/// The reserved word with this spelling, in any case.
pub fn word_named(text: &[u8]) -> Option<Word>
    ensures { result ≡ word_named text.now }
{
    word_of(row_of_word(text, word_rows()))
}

/// The sign with this spelling.
pub fn sign_named(text: &[u8]) -> Option<Fixed>
    ensures { result ≡ sign_named text.now }
{
    sign_of(row_of_sign(text, sign_rows()))
}
