//! Cases for what no command shows: the source of the demo, which is read and never written.
ghost use Rattle.std.specs.Prelude.{◌≤◌};

use crate::wants::wants_text;
use s7_base::NoMemory;
use s7_demo::demo_source;
use std::alloc::Global;
use std::process::Abort;
use std::test::Fail;

const OF_NONE: &str = "ORGANIZATION_BLOCK OB 1\nBEGIN\nEND_ORGANIZATION_BLOCK\n";

const OF_TWO: &str = "FUNCTION FC 1 : VOID
BEGIN
A M 0.0;
JCN L00;
L MW 4000;
L 1;
+I;
T MW 4000;
L00: NOP 0;
AN M 1.0;
JCN L01;
L MW 4002;
L 1;
+I;
T MW 4002;
L01: NOP 0;
END_FUNCTION
ORGANIZATION_BLOCK OB 1
BEGIN
CALL FC 1;
END_ORGANIZATION_BLOCK
";

/// The end of the source of 101 networks: the first function is full, and the second has one network.
const END_OF_101: &str = "L99: NOP 0;
END_FUNCTION
FUNCTION FC 2 : VOID
BEGIN
A M 100.0;
JCN L00;
L MW 4200;
L 1;
+I;
T MW 4200;
L00: NOP 0;
END_FUNCTION
ORGANIZATION_BLOCK OB 1
BEGIN
CALL FC 1;
CALL FC 2;
END_ORGANIZATION_BLOCK
";

/// The end of the functions of 4002 networks: the bytes and the words have begun anew.
const END_OF_4002: &str = "FUNCTION FC 41 : VOID
BEGIN
A M 0.0;
JCN L00;
L MW 4000;
L 1;
+I;
T MW 4000;
L00: NOP 0;
AN M 1.0;
JCN L01;
L MW 4002;
L 1;
+I;
T MW 4002;
L01: NOP 0;
END_FUNCTION
ORGANIZATION_BLOCK OB 1
BEGIN
";

/// The size of the lines that call the functions 1 to 41, and of the last line.
const CALLS_OF_4002: usize = 9 * 11 + 32 * 12 + 23;

/// The source of so many networks is the text.
fn wants_source(rt: &impl Abort, alloc: Global, networks: u32, wanted: &str) -> Result<(), NoMemory>
    requires { networks ≤ 50000 }
{
    let text = demo_source(alloc, networks)?;
    wants_text(rt, wanted.as_bytes(), text.as_slice(), wanted.as_bytes());
    Ok(())
}

/// The source of so many networks has the text at so many bytes before its end.
fn wants_end(
    rt: &impl Abort,
    alloc: Global,
    networks: u32,
    wanted: &str,
    behind: usize,
) -> Result<(), NoMemory>
    requires { networks ≤ 50000 }
{
    let text = demo_source(alloc, networks)?;
    let (front, _) = text.as_slice().split_at(text.len().saturating_sub(behind));
    let (_, end) = front.split_at(front.len().saturating_sub(wanted.len()));
    wants_text(rt, wanted.as_bytes(), end, wanted.as_bytes());
    Ok(())
}

#[test]
fn sources_of_the_demo(rt: HostRuntime) -> Result<(), Fail> {
    wants_source(&rt, rt.alloc(), 0, OF_NONE)?;
    wants_source(&rt, rt.alloc(), 2, OF_TWO)?;
    wants_end(&rt, rt.alloc(), 101, END_OF_101, 0)?;
    wants_end(&rt, rt.alloc(), 4002, END_OF_4002, CALLS_OF_4002)?;
    Ok(())
}
