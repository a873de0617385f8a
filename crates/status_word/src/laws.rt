//! Laws of the status word.
ghost use Rattle.status_word.specs.StatusLaws.{LoadedIsStored, PutIsGot, StoredIsLoaded};

/// A flag that is put has the value given, and the others keep theirs.
pub fn put_is_got()
    ensures { PutIsGot }
{}

/// What `T STW` stores is what `L STW` loads.
pub fn stored_is_loaded()
    ensures { StoredIsLoaded }
{}

/// `L STW` and then `T STW` leave the status word as it is.
pub fn loaded_is_stored()
    ensures { LoadedIsStored }
{}
