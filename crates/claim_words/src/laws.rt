//! Laws on lists that account for words.

ghost use Rattle.std.specs.Prelude.{◌≡◌, ◌⊎◌, ℕ, ◌+◌, ◌≤◌, List, ◌++◌, Option, None, Some, length};
ghost use Rattle.bip_defs.specs.Lists.{Among, AreDistinct, numbers_of};
ghost use Rattle.bip_defs.specs.Occurrences.{times};
ghost use Rattle.bip_defs.specs.WordValues.{held};
ghost use Rattle.claim_words.specs.Accounts.{Accounts, TellsOfWords, listed_word};
ghost use Rattle.claim_words.specs.Board.{Board, Words, opened_words};
ghost use Rattle.claim_words.specs.Listed.{Listed};
ghost use Rattle.claim_words.specs.Seat.{AreAllSeats, HoldsAllSeats, Seat, new_seats};
ghost use Rattle.claim_words.specs.Settles.{KnowWords, SawListed, Settles, SettlesAll};

/// Where a list accounts for words, each word is the value with which it was opened, or else what
/// is listed for it. So lists that account for the same words list the same, and a list accounts
/// for no other words.
pub fn words_are_listed()
    ensures word { (opened now : List (Option ℕ)) (listed : List (ℕ × ℕ)) (i : ℕ)
        → Accounts opened now listed → held now i ≡ listed_word opened listed i }
    ensures same_lists { (opened now : List (Option ℕ)) (listed other : List (ℕ × ℕ)) (i : ℕ)
        → Accounts opened now listed → Accounts opened now other
        → listed_word opened listed i ≡ listed_word opened other i }
    ensures same_words { (opened now other : List (Option ℕ)) (listed : List (ℕ × ℕ))
        → Accounts opened now listed → Accounts opened other listed → now ≡ other }
{}

/// Where a list accounts for words, a word that is listed was opened empty and holds what is
/// listed, and is listed once; a word that holds a value was opened with it, or is listed with it.
/// So no more words are listed than there are.
pub fn listed_words_stand()
    ensures { (opened now : List (Option ℕ)) (listed : List (ℕ × ℕ))
        → Accounts opened now listed → TellsOfWords opened now listed }
{}

/// How often a word is listed adds up over lists; a word is listed where some value is listed for
/// it. A list in which no word stands twice lists each word at most once, and the other way round.
pub fn times_add_up()
    ensures append { (i : ℕ) (xs ys : List (ℕ × ℕ)) → times i (xs ++ ys) ≡ times i xs + times i ys }
    ensures listed { (i x : ℕ) (xs : List (ℕ × ℕ)) → Among (i, x) xs → 1 ≤ times i xs }
    ensures some { (i : ℕ) (xs : List (ℕ × ℕ)) → 1 ≤ times i xs → (x : ℕ) × Among (i, x) xs }
    ensures distinct { (xs : List (ℕ × ℕ)) → ((i : ℕ) → times i xs ≤ 1)
        → AreDistinct (numbers_of xs) }
    ensures once { (i : ℕ) (xs : List (ℕ × ℕ)) → AreDistinct (numbers_of xs) → times i xs ≤ 1 }
{}

/// Where the lists of all seats account for the words, what one of them knows of a word is what the
/// word holds: it is the value with which the word was opened, or is listed for it.
pub fn known_values_stand()
    ensures known { (b : Board) (words : Words) (ss : List Seat)
        → SettlesAll b words ss → KnowWords b words ss }
    ensures seen { (rows roots : List (Option ℕ)) (words : Words) (l : Listed)
        → Settles rows roots words l → SawListed rows roots l }
{}

/// New seats are as many as were asked for, and at least one of them is all seats of the board, in
/// the order of their numbers. What they list, which is nothing, accounts for the words as they
/// were when the board was opened.
pub fn new_seats_are_all()
    ensures all { (b : Board) (seats : ℕ) → 1 ≤ seats → AreAllSeats b (new_seats b seats) }
    ensures in_any_order { (b : Board) (seats : ℕ) → 1 ≤ seats
        → HoldsAllSeats b (new_seats b seats) }
    ensures many { (b : Board) (seats : ℕ) → length (new_seats b seats) ≡ seats }
    ensures words { (b : Board) (seats : ℕ) → SettlesAll b (opened_words b) (new_seats b seats) }
{}

/// Seats that are all seats of a board in the order of their numbers are all its seats in any
/// order.
pub fn seats_in_order_are_all()
    ensures { (b : Board) (ss : List Seat) → AreAllSeats b ss → HoldsAllSeats b ss }
{}
