//! Laws of writing. Each is the contract of a function that does nothing.
ghost use Rattle.memory_areas.specs.Access.{read_bit, read_byte, read_dword, read_word, write_bit, write_byte, write_dword, write_word};
ghost use Rattle.memory_areas.specs.AreaLaws.{AnyBit, IsByte, IsDword, IsWord, MemoriesStay, OtherBitsStay, OtherBytesStay, ReadsBack, SizesStay};
ghost use Rattle.s7_base.specs.declared.word.Width.TheVariants.{Bit, Byte, Word, Dword};

/// A bit that was written is read back, and every other bit reads as before.
pub fn bits_are_kept()
    ensures back { ReadsBack read_bit write_bit }
    ensures bits { OtherBitsStay }
    ensures bytes { OtherBytesStay Bit write_bit }
{}

/// A byte that was written is read back, and every other byte reads as before.
pub fn bytes_are_kept()
    ensures back { ReadsBack read_byte write_byte }
    ensures bytes { OtherBytesStay Byte write_byte }
{}

/// A word that was written is read back, and every byte outside it reads as before.
pub fn words_are_kept()
    ensures back { ReadsBack read_word write_word }
    ensures bytes { OtherBytesStay Word write_word }
{}

/// A double word that was written is read back, and every byte outside it reads as before.
pub fn dwords_are_kept()
    ensures back { ReadsBack read_dword write_dword }
    ensures bytes { OtherBytesStay Dword write_dword }
{}

/// A write keeps the length of each area, and the fault of each access.
pub fn sizes_stay()
    ensures bit { SizesStay write_bit }
    ensures byte { SizesStay write_byte }
    ensures word { SizesStay write_word }
    ensures dword { SizesStay write_dword }
{}

/// After a write, a memory of some data blocks is still one of these blocks.
pub fn memories_stay()
    ensures bit { MemoriesStay AnyBit write_bit }
    ensures byte { MemoriesStay IsByte write_byte }
    ensures word { MemoriesStay IsWord write_word }
    ensures dword { MemoriesStay IsDword write_dword }
{}
