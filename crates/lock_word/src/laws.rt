//! The laws of words. Each is the contract of a function that does nothing, so that the gate proves it.

ghost use Rattle.lock_word.specs.Laws.{OneWordLaw, OneFatWordLaw, RoomLaw, FatRoomLaw, SightLaw, FatSightLaw, MaskLaw, LanesLaw, SetLaw, ClearLaw, EmptyLaw, MembersLaw};

/// One word spells one lock, in 64 bits.
pub fn one_word_law()
    // One word spells one lock.
    ensures lock { OneWordLaw }
    // One word spells one lock.
    ensures fat { OneFatWordLaw }
    // A lock's word has 64 bits.
    ensures room { RoomLaw }
    // A lock's word has 64 bits.
    ensures fat_room { FatRoomLaw }
{}

/// A look at a word tells what may be seen of its monitor.
pub fn sight_law()
    // What a word says of owner, count and number is what a look may tell in each state in which the word is right.
    ensures thin { SightLaw }
    // What a word says of owner, count and number is what a look may tell in each state in which the word is right.
    ensures fat { FatSightLaw }
{}

/// Each set of lanes has one mask. Setting a bit puts a lane in, clearing it takes the lane out, and 0
/// is the mask of no lane.
pub fn mask_law()
    // Each set of lanes has one mask, and each mask of 32 bits is that of one set.
    ensures mask { MaskLaw }
    // Each set of lanes has one mask, and each mask of 32 bits is that of one set.
    ensures lanes { LanesLaw }
    // Setting one lane's bit adds that lane to the set, and changes no other.
    ensures set { SetLaw }
    // Clearing one lane's bit takes that lane out of the set, and changes no other.
    ensures clear { ClearLaw }
    // A mask of 0 is the empty set.
    ensures empty { EmptyLaw }
{}

/// The members of a wait set are the lanes in it.
pub fn members_law()
    // The list of a set's members has just the lanes of the set.
    ensures { MembersLaw }
{}
