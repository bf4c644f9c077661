//! The law of listings, over definitions alone; the function's clause is the law.

ghost use Rattle.std.specs.Prelude.{◌≡◌, ℕ, List};
ghost use Rattle.target_file.specs.Bare.{bare, lines_of};
ghost use Rattle.trips_listing_text.specs.declared.told.Told.{Told};
ghost use Rattle.trips_listing_text.specs.Comments.{comments};
ghost use Rattle.trips_listing_text.specs.Listed.{listed};

/// The comment lines change nothing of what is left of a text, whatever they tell.
pub fn comments_change_nothing()
    ensures { (entries : List ℕ) (told : List Told) (text : List ℕ)
        → bare (listed (comments entries told) 0 (lines_of text)) ≡ bare text }
{}
