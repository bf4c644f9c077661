//! What words say of the form of the answer.

ghost use Rattle.std.specs.Prelude.{◌≡◌, map, string_bytes};
ghost use Rattle.trips_json.specs.Words.{has_output, is_asking, is_json, without_json};

// The word asks for JSON.
fn is_asking(word: &String) -> bool
    ensures { result ≡ is_asking (string_bytes word.now) }
{
    word.as_str() == "--json"
}

// A word asks for JSON.
fn is_json(words: &[String]) -> bool
    ensures { result ≡ is_json (map (λ word. string_bytes word) words.now) }
{
    for word in words {
        if is_asking(word) {
            return true;
        }
    }
    false
}

/// Whether a word asks for JSON, and the words without it.
pub fn said_json(words: Vec<String>) -> (bool, Vec<String>)
    ensures said { result.0 ≡ is_json (map (λ word. string_bytes word) words.items) }
    ensures rest { map (λ word. string_bytes word) result.1.items
        ≡ without_json (map (λ word. string_bytes word) words.items) }
{
    let said = is_json(&words);
    let mut rest = words;
    rest.retain(|word| !is_asking(word));
    (said, rest)
}

/// Whether the command is one whose report begins with what a program put out.
pub fn has_output(words: &[String]) -> bool
    ensures { result ≡ has_output (map (λ word. string_bytes word) words.now) }
{
    match words {
        [first, ..] => {
            let name = first.as_str();
            name == "run" || name == "bench" || name == "eval" || name == "resume"
        }
        [] => false,
    }
}
