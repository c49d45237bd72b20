//! Laws of the spelling. The functions do nothing: what they ensure is proved of every value.
ghost use Rattle.std.specs.Prelude.{◌≡◌, ℕ, ◌+◌, ◌≤◌, List, ◌∷◌, ◌++◌, length};
ghost use Rattle.bencode_wire.specs.Tree.{Tree, TreePairs, dictionary};
ghost use Rattle.bencode_wire.specs.Spelling.{text, canonical, sorted, Spells, IsSpellable};
ghost use Rattle.bencode_wire.specs.Spelling.{IsDistinct};
ghost use Rattle.bencode_wire.specs.Stream.{StreamEnding, Streams};
ghost use Rattle.bencode_wire.specs.Inside.Nesting.{tree_nesting};

/// No spelling of a value is a proper prefix of a spelling of any value: where two begin the same
/// bytes, they are the same, and so is what follows them.
pub fn no_spelling_begins_another()
    ensures { (v w : Tree) (a b x y : List ℕ) → Spells v a → Spells w b → a ++ x ≡ b ++ y
        → (a ≡ b) × (x ≡ y) }
{}

/// A spelling has one value: the values that it spells differ in the order of their pairs alone.
pub fn a_spelling_has_one_value()
    ensures { (v w : Tree) (bytes : List ℕ) → Spells v bytes → Spells w bytes
        → sorted v ≡ sorted w }
{}

/// What `write_into` writes of a value is a spelling of it, where its keys are distinct and its
/// integers and strings fit; so it is of each value that has a spelling.
pub fn what_is_written_is_a_spelling()
    ensures value { (v : Tree) → IsSpellable v → IsDistinct v → Spells v (canonical v) }
    ensures spelled { (v : Tree) (bytes : List ℕ) → Spells v bytes → Spells v (canonical v) }
{}

/// A text is read in one way: its value, with its pairs in the order in which they stand, is known.
pub fn a_text_has_one_value()
    ensures { (v w : Tree) (x y : List ℕ) → IsSpellable v → IsSpellable w
        → text v ++ x ≡ text w ++ y → (v ≡ w) × (x ≡ y) }
{}

/// A stream has one reading: its messages, how it ends, and a fault's kind and place are known. So
/// the cutting into pieces does not matter.
pub fn a_stream_has_one_reading()
    ensures { (limit : ℕ) (bytes : List ℕ) (ms ns : List Tree) (e f : StreamEnding)
        → Streams limit 0 bytes ms e → Streams limit 0 bytes ns f → (ms ≡ ns) × (e ≡ f) }
{}

/// Each stream has a reading.
pub fn every_stream_reads()
    ensures { (limit : ℕ) (bytes : List ℕ)
        → (ms : List Tree) × (end : StreamEnding) × Streams limit 0 bytes ms end }
{}

/// What is spelled within the limits is read, whatever follows: each spelling of a dictionary is
/// read as the dictionary, and the stream goes on behind it.
pub fn a_spelling_is_read()
    ensures { (limit place : ℕ) (ps : TreePairs) (bytes more : List ℕ) (ts : List Tree)
        (end : StreamEnding)
        → Spells (dictionary ps) bytes → tree_nesting (dictionary ps) ≤ 64 → length bytes ≤ limit
        → Streams limit (place + length bytes) more ts end
        → Streams limit place (bytes ++ more) (sorted (dictionary ps) ∷ ts) end }
{}

/// What `write_into` wrote is read again, whatever follows, within the limits: of every dictionary
/// whose integers and strings fit, as those of each `Ben` do (`write_into` says so).
pub fn what_is_written_is_read()
    ensures { (limit place : ℕ) (ps : TreePairs) (more : List ℕ) (ts : List Tree) (end : StreamEnding)
        → IsSpellable (dictionary ps) → tree_nesting (dictionary ps) ≤ 64
        → length (canonical (dictionary ps)) ≤ limit
        → Streams limit (place + length (canonical (dictionary ps))) more ts end
        → Streams limit place (canonical (dictionary ps) ++ more)
        (sorted (dictionary ps) ∷ ts) end }
{}
