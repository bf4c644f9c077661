//! Laws of objects and strings; each function's clause is the law.

ghost use Rattle.std.specs.Prelude.{◌≡◌, ◌<◌, ◌^◌, ◌++◌, codes, true, length, All, List, ℕ};
ghost use Rattle.trips_requests.specs.Texts.{output_and};
ghost use Rattle.trips_requests.specs.declared.status.Status.{Status};
ghost use Rattle.trips_json.specs.Strings.{escaped, unescaped};
ghost use Rattle.trips_json.specs.Lines.{is_one_line};
ghost use Rattle.trips_json.specs.Objects.{answered, json_text, told_in_parts};

/// What stands in a string stands for the very bytes that it was made of.
pub fn strings_are_read_back()
    ensures { (bytes : List ℕ) → All (λ b. b < 256) bytes → unescaped (escaped bytes) ≡ bytes }
{}

/// The object of a report that begins with an output and the line of an end has both, whatever stands in the output.
pub fn outputs_are_told()
    ensures { (s : Status) (output line rest : List ℕ) → length output < 2 ^ 64 → is_one_line line ≡ true
        → json_text true s (output_and output line ++ rest)
        ≡ answered s ++ (told_in_parts output line rest ++ codes "}\n") }
{}
