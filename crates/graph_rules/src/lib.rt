//! The rules of graph programs: what `Plain` asks of the programs that one pass of a translation gives to the
//! next.
//!
//! Uses `st_tree`, which has graph programs, their types and the parts of a body. It computes nothing.
#![tactic(auto)]
