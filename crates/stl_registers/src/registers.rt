//! The registers, and the instructions that change the numbers of the open data blocks.
ghost use Rattle.std.specs.Prelude.{◌≡◌};
ghost use Rattle.stl_registers.specs.Values.{values};
ghost use Rattle.stl_tree.specs.DataBlocks.{db_number_loaded, db_opened, dbs_exchanged, di_number_loaded, di_opened};
ghost use Rattle.stl_tree.specs.Registers.{start};

use status_word::Status;

/// The accumulators and address registers, the numbers of the open data blocks, and the status word.
#[derive(Clone, Copy)]
pub struct Registers {
    pub accu1: u32,
    pub accu2: u32,
    pub ar1: u32,
    pub ar2: u32,
    pub db: u16,
    pub di: u16,
    pub status: Status,
}

impl Registers {
    /// The registers with which a run begins: all zero.
    #[tactic(auto, unfolding(status_word::specs::Flags::bits_of, status_word::specs::Flags::has_bit))]
    pub fn start() -> Registers
        ensures { values result ≡ start }
    {
        Registers {
            accu1: 0,
            accu2: 0,
            ar1: 0,
            ar2: 0,
            db: 0,
            di: 0,
            status: Status(0),
        }
    }

    /// `OPN` of a data block, which need not exist.
    pub fn db_opened(self, number: u16) -> Registers
        ensures { values result ≡ db_opened number (values self) }
    {
        Registers { db: number, ..self }
    }

    /// `OPN` of an instance, which need not exist.
    pub fn di_opened(self, number: u16) -> Registers
        ensures { values result ≡ di_opened number (values self) }
    {
        Registers { di: number, ..self }
    }

    /// `CDB`: the DB and the DI register exchange their numbers.
    pub fn dbs_exchanged(self) -> Registers
        ensures { values result ≡ dbs_exchanged (values self) }
    {
        Registers {
            db: self.di,
            di: self.db,
            ..self
        }
    }

    /// `L DBNO`: loads the number of the open data block.
    pub fn db_number_loaded(self) -> Registers
        ensures { values result ≡ db_number_loaded (values self) }
    {
        self.after_load(u32::from(self.db))
    }

    /// `L DINO`: loads the number of the open instance.
    pub fn di_number_loaded(self) -> Registers
        ensures { values result ≡ di_number_loaded (values self) }
    {
        self.after_load(u32::from(self.di))
    }
}
