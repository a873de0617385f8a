//! Cases for what no clause says: that the effects on the status word give each bit that the rules of STL ask
//! for.
use crate::wants::wants;
use s7_base::{Check, Entry};
use status_word::{Flag, Status, Test};
use std::process::Abort;
use std::test::Fail;

const FC: u16 = 0x1;

const RLO: u16 = 0x2;

const STA: u16 = 0x4;

const OR: u16 = 0x8;

const OS: u16 = 0x10;

const OV: u16 = 0x20;

const CC0: u16 = 0x40;

const CC1: u16 = 0x80;

const BR: u16 = 0x100;

const ALL: u16 = 0x1ff;

/// A call of the status word that gives another one.
#[derive(Clone, Copy)]
enum Effect {
    Put(Flag, bool),
    Checked(Check, bool),
    AndBeforeOr,
    Opened,
    Closed(Check, bool, bool, bool),
    Stored(bool),
    SetRlo,
    ClearRlo,
    Negated,
    Saved,
    Edge(bool, bool),
    Signed(i64, bool),
    ZeroDivisor,
    Converted(bool),
    Compared(i32, i32, bool),
    Shifted(bool),
    Logic(bool),
    AfterJump,
    Called,
    Ended,
    FromWord(u16),
}

fn after(effect: Effect, before: Status) -> Status {
    match effect {
        Effect::Put(flag, value) => before.put(flag, value),
        Effect::Checked(check, value) => before.checked(check, value),
        Effect::AndBeforeOr => before.and_before_or(),
        Effect::Opened => before.opened(),
        Effect::Closed(check, rlo, orb, nfc) => before.closed(Entry {
            check,
            rlo,
            orb,
            nfc,
        }),
        Effect::Stored(bit) => before.stored(bit),
        Effect::SetRlo => before.set_rlo(),
        Effect::ClearRlo => before.clear_rlo(),
        Effect::Negated => before.negated(),
        Effect::Saved => before.saved(),
        Effect::Edge(rising, old) => before.edge(rising, old),
        Effect::Signed(value, over) => before.signed(value, over),
        Effect::ZeroDivisor => before.zero_divisor(),
        Effect::Converted(over) => before.converted(over),
        Effect::Compared(a, b, holds) => before.compared(a, b, holds),
        Effect::Shifted(out) => before.shifted(out),
        Effect::Logic(nonzero) => before.logic(nonzero),
        Effect::AfterJump => before.after_jump(),
        Effect::Called => before.called(),
        Effect::Ended => before.ended(),
        Effect::FromWord(word) => before.from_word(word),
    }
}

/// A call, the bits before it and those after it.
type Bits = (Effect, u16, u16);

static CASES: [Bits; 66] = [
    (Effect::Put(Flag::Nfc, true), 0, FC),
    (Effect::Put(Flag::Rlo, true), 0, RLO),
    (Effect::Put(Flag::Sta, true), 0, STA),
    (Effect::Put(Flag::Orb, true), 0, OR),
    (Effect::Put(Flag::Os, true), 0, OS),
    (Effect::Put(Flag::Ov, true), 0, OV),
    (Effect::Put(Flag::Cc0, true), 0, CC0),
    (Effect::Put(Flag::Cc1, true), 0, CC1),
    (Effect::Put(Flag::Br, true), 0, BR),
    (Effect::Put(Flag::Ov, false), ALL, ALL - OV),
    (Effect::Checked(Check::A, true), 0, FC + RLO + STA),
    (Effect::Checked(Check::A, true), FC, FC + STA),
    (Effect::Checked(Check::A, false), ALL, ALL - STA),
    (
        Effect::Checked(Check::A, false),
        ALL - OR,
        ALL - OR - STA - RLO,
    ),
    (Effect::Checked(Check::An, false), 0, FC + RLO),
    (Effect::Checked(Check::An, true), ALL - OR, ALL - OR - RLO),
    (Effect::Checked(Check::O, true), 0, FC + RLO + STA),
    (Effect::Checked(Check::O, false), RLO, FC),
    (Effect::Checked(Check::O, false), ALL, ALL - OR - STA),
    (Effect::Checked(Check::On, false), 0, FC + RLO),
    (Effect::Checked(Check::On, true), ALL, ALL - OR),
    (Effect::Checked(Check::X, true), RLO, FC + RLO + STA),
    (Effect::Checked(Check::X, true), ALL, ALL - OR - RLO),
    (Effect::Checked(Check::Xn, false), RLO, FC + RLO),
    (Effect::Checked(Check::Xn, true), ALL, ALL - OR),
    (Effect::AndBeforeOr, ALL, ALL - FC),
    (Effect::AndBeforeOr, ALL - FC, ALL - FC - OR),
    (Effect::AndBeforeOr, ALL - RLO, ALL - RLO - OR - FC),
    (Effect::AndBeforeOr, 0, STA),
    (Effect::Opened, ALL, ALL - OR - FC),
    (Effect::Opened, 0, STA),
    (
        Effect::Closed(Check::A, true, true, true),
        FC,
        FC + RLO + STA + OR,
    ),
    (
        Effect::Closed(Check::A, false, false, false),
        RLO,
        FC + RLO + STA,
    ),
    (
        Effect::Closed(Check::An, true, false, true),
        ALL,
        ALL - OR - RLO,
    ),
    (Effect::Closed(Check::O, false, true, true), ALL, ALL - OR),
    (
        Effect::Closed(Check::On, false, true, true),
        ALL,
        ALL - OR - RLO,
    ),
    (Effect::Closed(Check::X, true, false, true), RLO, FC + STA),
    (
        Effect::Closed(Check::X, true, false, false),
        RLO,
        FC + RLO + STA,
    ),
    (
        Effect::Closed(Check::Xn, true, false, true),
        RLO,
        FC + RLO + STA,
    ),
    (Effect::Stored(true), 0, STA),
    (Effect::Stored(false), ALL, ALL - STA - OR - FC),
    (Effect::SetRlo, 0, RLO + STA),
    (Effect::SetRlo, ALL, ALL - OR - FC),
    (Effect::ClearRlo, ALL, ALL - RLO - STA - OR - FC),
    (Effect::Negated, 0, RLO + STA),
    (Effect::Negated, ALL, ALL - RLO),
    (Effect::Saved, RLO, RLO + BR),
    (Effect::Saved, ALL - RLO, ALL - RLO - BR),
    (Effect::Edge(true, false), ALL, ALL - OR),
    (Effect::Edge(true, true), ALL, ALL - OR - RLO - STA),
    (Effect::Edge(false, true), 0, FC + RLO + STA),
    (Effect::Edge(false, false), 0, FC),
    (Effect::Signed(1, false), ALL, ALL - CC0 - OV),
    (Effect::Signed(-1, true), 0, CC0 + OV + OS),
    (
        Effect::Signed(0, false),
        ALL - OS,
        ALL - OS - OV - CC0 - CC1,
    ),
    (Effect::ZeroDivisor, 0, CC0 + CC1 + OV + OS),
    (Effect::Converted(true), 0, OV + OS),
    (Effect::Converted(false), ALL, ALL - OV),
    (Effect::Compared(5, 3, true), OR + OV, RLO + STA + FC + CC1),
    (
        Effect::Compared(-5, 3, false),
        ALL,
        ALL - OR - OV - CC1 - RLO - STA,
    ),
    (Effect::Shifted(true), ALL, ALL - CC0 - OV),
    (Effect::Logic(false), ALL, ALL - CC0 - CC1 - OV),
    (Effect::AfterJump, OR + FC, STA + RLO),
    (Effect::Called, ALL, ALL - OS - OR - FC),
    (Effect::Ended, FC + OS, STA),
    (
        Effect::FromWord(0x1f0),
        RLO + STA + FC,
        STA + FC + OS + OV + CC0 + CC1 + BR,
    ),
];

/// Tests a call. A failure is named by the number of the case and the bits before it.
fn want_bits(rt: &impl Abort, rows: &[Bits]) {
    for (place, (effect, before, behind)) in rows.iter().enumerate() {
        wants(
            rt,
            &(place, *before),
            &after(*effect, Status(*before)).0,
            behind,
        );
    }
}

#[test]
fn each_case_gives_each_bit(rt: HostRuntime) -> Result<(), Fail> {
    want_bits(&rt, &CASES);
    Ok(())
}

/// A test, CC1, CC0 and the other flags that it may depend on, and the answer.
type Question = (Test, u16, bool);

static QUESTIONS: [Question; 31] = [
    (Test::Eq, 0, true),
    (Test::Eq, CC0, false),
    (Test::Eq, CC1, false),
    (Test::Eq, CC0 + CC1, false),
    (Test::Ne, 0, false),
    (Test::Ne, CC0, true),
    (Test::Ne, CC1, true),
    (Test::Ne, CC0 + CC1, false),
    (Test::Gt, 0, false),
    (Test::Gt, CC0, false),
    (Test::Gt, CC1, true),
    (Test::Gt, CC0 + CC1, false),
    (Test::Lt, 0, false),
    (Test::Lt, CC0, true),
    (Test::Lt, CC1, false),
    (Test::Lt, CC0 + CC1, false),
    (Test::Ge, 0, true),
    (Test::Ge, CC0, false),
    (Test::Ge, CC1, true),
    (Test::Le, 0, true),
    (Test::Le, CC0, true),
    (Test::Le, CC1, false),
    (Test::Uo, 0, false),
    (Test::Uo, CC0 + CC1, true),
    (Test::Uo, CC1, false),
    (Test::Ov, OV, true),
    (Test::Ov, ALL - OV, false),
    (Test::Os, OS, true),
    (Test::Os, ALL - OS, false),
    (Test::Br, BR, true),
    (Test::Br, ALL - BR, false),
];

fn want_answers(rt: &impl Abort, rows: &[Question]) {
    for (test, bits, answer) in rows {
        wants(rt, test, &Status(*bits).test(*test), answer);
    }
}

#[test]
fn each_question_is_answered(rt: HostRuntime) -> Result<(), Fail> {
    want_answers(&rt, &QUESTIONS);
    wants(&rt, &"loaded", &Status(ALL).word(), &(ALL - FC - STA - OR));
    wants(&rt, &"flag", &Status(OV).get(Flag::Ov), &true);
    Ok(())
}
