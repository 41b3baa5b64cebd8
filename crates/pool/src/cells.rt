//! The cells in which a pool is kept.

ghost use Rattle.std.specs.Prelude.{[], ◌∷◌, ◌++◌, List, IfOk, IfErr, OnOk, MatchResult};
ghost use Rattle.pool.specs.Knowledge.{Access, Loaded, Stored, Knowledge, Reads, Stores, FailsToLoad, FailsToStore};

use heap_model::FieldId;

/// Cells that hold the values of fields, as far as one thread has them to itself.
///
/// Contracts see what is known of them: the values of some cells, and which calls would fail. A load makes its cell known,
/// and a store both of its cells; no call changes what is known of another.
pub trait Cells {
    /// Why a call fails. A call that fails leaves the cells, and what is known of them, as they were.
    type Fault: Drop;

    /// What is known of the cells.
    ghost knows: { Self → Knowledge Self.Fault };

    /// What calls that loaded and stored this, the newest first, keep of the cells in addition: for example which cells they are.
    ghost keeps: { Self → Self → List Access → Type 0 };

    /// The value of the field's cell: the known one, if it is known.
    fn load(&mut self, field: FieldId) -> Result<u64, Self::Fault>
        ensures ok { IfOk result (λ value. Reads (knows self.old) field.0 value (knows self.new)) }
        ensures fault { IfErr result (λ fault. FailsToLoad (knows self.old) field.0 fault (knows self.new)) }
        ensures keeps { MatchResult result (λ value. keeps self.old self.new (Loaded field.0 value ∷ [])) (λ fault. keeps self.old self.new []) };

    /// Stores `one` in the first field's cell and then `two` in the second's, or neither.
    fn store_two(
        &mut self,
        first: FieldId,
        one: u64,
        second: FieldId,
        two: u64,
    ) -> Result<(), Self::Fault>
        ensures ok { OnOk result (Stores (knows self.old) first.0 one second.0 two (knows self.new)) }
        ensures fault { IfErr result (λ fault. FailsToStore (knows self.old) first.0 second.0 fault (knows self.new)) }
        ensures keeps { MatchResult result (λ done. keeps self.old self.new (Stored second.0 two ∷ Stored first.0 one ∷ [])) (λ fault. keeps self.old self.new []) };

    /// What one call keeps and then another, both keep.
    ghost keeps_both: { (a b c : Self) (x y : List Access) → keeps a b x → keeps b c y → keeps a c (y ++ x) };
}
