// What a row of a table tells: its key, and whether it is free.
ghost use Rattle.std.specs.Prelude.{◌≡◌, Bool, true, Decides};
ghost use Rattle.tables.specs.Rows.{Held};

/// A row of a table: free, or in use under its key.
pub trait Row {
    type Key: Eq + Drop;

    ghost free: { Self → Bool };

    ghost named: { Self → Self.Key };

    /// Whether the row is free.
    fn is_free(&self) -> bool
        ensures { result ≡ free self.now };

    /// The key that the row is in use under; of a free row it means nothing.
    // No Option for a free row, since `Table::set` promises to write that, too, to the place of its key.
    fn key(&self) -> Self::Key
        ensures { result ≡ named self.now };

    /// Whether the row is in use under the key.
    // A kind of row may look at its key first, where that is the cheaper test.
    fn is_under(&self, key: &Self::Key) -> bool
        ensures { Decides result (Held free named key.now self.now) }
    {
        !self.is_free() && self.key() == *key
    }

    /// Frees the row.
    fn clear(&mut self)
        ensures { free self.new ≡ true };

    // Keys that compare equal are the same key.
    ghost exact: { (a b : Self.Key) → Self.Key.eq a b ≡ true → a ≡ b };
}
