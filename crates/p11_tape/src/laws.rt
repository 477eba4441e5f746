// Laws of the grammar.
ghost use Rattle.std.specs.Prelude.{◌≡◌, ℕ, ◌<◌, ◌^◌, ◌++◌, List, None, Ok, [], All};
ghost use Rattle.p11_tape.specs.Laws.Block.{Block, block_bytes, IsLastBlock};
ghost use Rattle.p11_tape.specs.Reading.{Meaning, reading, start_of};
ghost use Rattle.p11_tape.specs.Laws.Tape.{IsFront, Means};
ghost use Rattle.p11_tape.specs.Laws.Writer.{Piece, IsPiece, written, pieces_placed, made_block};

/// What the bytes of a tape are read as is what the grammar gives them to mean, and what it gives them to mean is what
/// they are read as. So they have one meaning, and bytes with a fault have none.
pub fn tapes_are_read_by_the_grammar()
    ensures read { (tape : List ℕ) (meaning : Meaning) → All (λ b. b < 256) tape → reading tape ≡ Ok meaning →
        Means tape meaning }
    ensures means { (tape : List ℕ) (meaning : Meaning) → Means tape meaning → reading tape ≡ Ok meaning }
{}

/// What follows the last block doesn't matter.
pub fn after_the_last_block()
    ensures { (front : List ℕ) (blocks : List Block) (last : Block) (after other : List ℕ) →
        IsFront front blocks [] → IsLastBlock last →
        reading (front ++ (block_bytes last ++ after)) ≡ reading (front ++ (block_bytes last ++ other)) }
{}

/// A writer's tape is read as the pieces that were written, with no start address.
pub fn written_tape()
    ensures { (zeros : ℕ) (pieces : List Piece) → All IsPiece pieces →
        reading (written zeros pieces) ≡ Ok (record { placed = pieces_placed pieces; start = None }) }
{}

/// With a last block it gives the start address of that, if it is even, whatever follows.
pub fn written_tape_with_last_block()
    ensures { (zeros : ℕ) (pieces : List Piece) (address : ℕ) (after : List ℕ) →
        All IsPiece pieces → address < 2 ^ 16 →
        reading (written zeros pieces ++ (block_bytes (made_block address []) ++ after))
        ≡ Ok (record { placed = pieces_placed pieces; start = start_of address }) }
{}
