//! Items of a source text, and their places.

use crate::declaration::{Level, OpenStruct, Section, Written};
use s7_base::{Line, List, Reason};
use std::collections::LinkedList;
use stl_tree::{
    BlockKind, ElemType, InitialItem, RawBlock, RawData, RawInitial, RawInstr, RawName, SymbolLine,
};

/// The place of an item.
#[derive(Drop)]
pub enum Where {
    /// Before the first block of the text.
    Start,

    /// In the symbol table; with the line of the last token before.
    Table(Line),

    /// After a block.
    Between,

    /// After the heading of a block; with the line of the last token before.
    Heading(BlockKind, Line),

    /// Among the declarations of a section; with the STRUCTs that are open, the innermost first.
    Inside(BlockKind, Section, LinkedList<Level>),

    /// After a section.
    Behind(BlockKind, Section),

    /// In the body of a block.
    Body(BlockKind),

    /// Among the initial values of a data block.
    Values,
}

/// An item of a text.
#[derive(Drop)]
pub enum Item {
    /// The heading of a block, with its line, its name and the type of its result.
    Opens(Line, BlockKind, RawName, Option<ElemType>),

    /// An item that only separates others: `BEGIN`, `;` alone, a word or a line that is skipped, the words
    /// around the symbol table and the end of a section.
    Mark,

    /// The word that opens a section.
    Starts(Section),

    /// A line of the symbol table.
    Symbol(SymbolLine),

    /// A declaration with its name, its line and its type; it opens a STRUCT where its members follow.
    Declares(List<u8>, Line, Written),

    /// The function block of which a data block is an instance.
    InstanceOf(RawName),

    /// The end of the innermost STRUCT, with its initial values.
    Closes(List<InitialItem>),

    Instr(RawInstr),

    /// An initial value of a data block.
    Initial(RawInitial),

    /// The end word of a block, with its line.
    Ends(Line),
}

/// What is found at a place.
#[derive(Drop)]
pub enum NextItem {
    /// An item, how many tokens after its first it takes, and the place of the next one.
    Fits(Item, usize, Where),

    /// No item; with the line and the reason of the refusal.
    Misfit(Line, Reason),

    /// The end of the text, which may end here.
    Ended,
}

/// A text as far as it is read: its symbol lines, the data blocks and other blocks before the last one, and the
/// last one of either kind, whose end word may still come, with what is open of its declarations.
#[derive(Drop)]
pub struct Reading {
    pub symbols: List<SymbolLine>,
    pub dbs: List<RawData>,
    pub last_db: Option<RawData>,
    pub done: List<RawBlock>,
    pub last: Option<RawBlock>,

    /// The section that opened last, where declarations belong.
    pub section: Section,

    /// The STRUCTs that are open, the innermost first.
    pub structs: LinkedList<OpenStruct>,
}
