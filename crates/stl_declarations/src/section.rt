//! Sections of declarations: which one a word opens, what may be in it, and the word that ends it.
ghost use Rattle.std.specs.Prelude.{◌≡◌};
ghost use Rattle.stl_grammar.specs.Sections.{end_of_section, formal_section, has_section, inner_section, is_formal, is_later, may_open, rank_of, section_at, section_named, takes_dates, takes_values};

use s7_base::Token;
use stl_constants::is_word;
use stl_grammar::Section;
use stl_tree::BlockKind;

/// A section of formals, by its word.
fn formal_section(word: &Token) -> Option<Section>
    ensures { result ≡ formal_section word.now }
{
    if is_word(word, "VAR_INPUT") {
        Some(Section::Input)
    } else if is_word(word, "VAR_OUTPUT") {
        Some(Section::Output)
    } else if is_word(word, "VAR_IN_OUT") {
        Some(Section::InOut)
    } else {
        None
    }
}

/// A section that is not one of formals, by its word.
fn inner_section(word: &Token) -> Option<Section>
    ensures { result ≡ inner_section word.now }
{
    if is_word(word, "VAR") {
        Some(Section::Static)
    } else if is_word(word, "VAR_TEMP") {
        Some(Section::Temp)
    } else if is_word(word, "STRUCT") {
        Some(Section::Own)
    } else {
        None
    }
}

/// The section that begins with a word.
fn section_named(word: &Token) -> Option<Section>
    ensures { result ≡ section_named word.now }
{
    match formal_section(word) {
        Some(section) => Some(section),
        None => inner_section(word),
    }
}

/// Whether a block of this kind may have this section.
fn has_section(kind: BlockKind, section: Section) -> bool
    ensures { result ≡ has_section kind section }
{
    match kind {
        BlockKind::Ob => matches!(section, Section::Temp),
        BlockKind::Fc => matches!(
            section,
            Section::Input | Section::Output | Section::InOut | Section::Temp
        ),
        BlockKind::Fb => !matches!(section, Section::Own),
        BlockKind::Db => matches!(section, Section::Own),
    }
}

/// The rank of a section in the order of sections.
fn rank_of(section: Section) -> u8
    ensures { result ≡ rank_of section }
{
    match section {
        Section::Input => 0,
        Section::Output => 1,
        Section::InOut => 2,
        Section::Static => 3,
        Section::Temp => 4,
        Section::Own => 5,
    }
}

/// Whether a section may come after another one, or after none.
fn is_later(before: Option<Section>, section: Section) -> bool
    ensures { result ≡ is_later before section }
{
    match before {
        Some(before) => rank_of(before) < rank_of(section),
        None => true,
    }
}

/// Whether a section may open in a block of this kind, after another one or after none.
fn may_open(kind: BlockKind, before: Option<Section>, section: Section) -> bool
    ensures { result ≡ may_open kind before section }
{
    has_section(kind, section) && is_later(before, section)
}

/// The section that a word opens in a block of this kind, after another section or after none.
pub fn section_at(kind: BlockKind, before: Option<Section>, word: &Token) -> Option<Section>
    ensures { result ≡ section_at kind before word.now }
{
    match section_named(word) {
        Some(section) if may_open(kind, before, section) => Some(section),
        Some(_) | None => None,
    }
}

/// Whether a section is one of formals.
pub fn is_formal(section: Section) -> bool
    ensures { result ≡ is_formal section }
{
    matches!(section, Section::Input | Section::Output | Section::InOut)
}

/// Whether the declarations of a section in a block of this kind may have initial values.
pub fn takes_values(kind: BlockKind, section: Section) -> bool
    ensures { result ≡ takes_values kind section }
{
    match kind {
        BlockKind::Fc => false,
        BlockKind::Ob | BlockKind::Fb | BlockKind::Db => !matches!(section, Section::Temp),
    }
}

/// Whether a declaration of a section may be of DATE_AND_TIME.
pub fn takes_dates(section: Section) -> bool
    ensures { result ≡ takes_dates section }
{
    match section {
        Section::Temp => true,
        Section::Input | Section::Output | Section::InOut | Section::Static | Section::Own => false,
    }
}

/// The word that ends a section.
pub fn end_of_section(section: Section) -> &'static str
    ensures { result.now ≡ end_of_section section }
{
    match section {
        Section::Own => "END_STRUCT",
        Section::Input | Section::Output | Section::InOut | Section::Static | Section::Temp => {
            "END_VAR"
        }
    }
}
