//! Numbers of blocks.
ghost use Rattle.std.specs.Prelude.{◌≡◌};
ghost use Rattle.stl_rules.specs.Names.{may_have};

use stl_tree::BlockKind;

/// Whether a block of a kind may have a number.
pub fn may_have(kind: BlockKind, number: u32) -> bool
    ensures { result ≡ may_have kind number }
{
    let least = match kind {
        BlockKind::Ob | BlockKind::Db => 1,
        BlockKind::Fc | BlockKind::Fb => 0,
    };
    least <= number && number <= 65_535
}
