//! What the tests share: words, and that they make a request.

use std::alloc::{AllocError, Global};
use std::process::Abort;
use trips_requests::{Asked, Command, PredictorStart, WeatherKind};
use trips_words::request;

/// A run of a.c with nothing asked besides.
pub const PLAIN: Asked<'static> = Asked {
    command: Command::Run,
    file: "a.c",
    second: None,
    third: None,
    fourth: None,
    functions: None,
    input: None,
    most: 1_000_000,
    place: None,
    unroll: 1,
    seed: 0,
    predictor: PredictorStart::Seeded,
    weather: WeatherKind::Seeded,
    frames: 8,
    regs: false,
    trace: false,
    cycles: false,
    stats: false,
    events: None,
};

/// The words of a command line.
pub fn words_of(alloc: Global, texts: &[&str]) -> Result<Vec<String>, AllocError> {
    let mut words = Vec::new(alloc);
    for text in texts {
        words.push(String::from_str(alloc, *text)?)?;
    }
    Ok(words)
}

/// The words make this request.
pub fn assert_asked(
    rt: &impl Abort,
    alloc: Global,
    texts: &[&str],
    wanted: &Asked<'_>,
) -> Result<(), AllocError> {
    let words = words_of(alloc, texts)?;
    let asked = request(alloc, &words)
        .expect(rt, "memory")
        .expect(rt, "a request");
    assert!(rt; asked.command == wanted.command, "{texts:?}");
    assert!(rt; asked.file == wanted.file, "{texts:?}");
    assert!(rt; asked.second == wanted.second, "{texts:?}");
    assert!(rt; asked.functions == wanted.functions, "{texts:?}");
    assert!(rt; asked.input == wanted.input, "{texts:?}");
    assert!(rt; asked.most == wanted.most, "{texts:?}");
    assert!(rt; asked.place == wanted.place, "{texts:?}");
    assert!(rt; asked.unroll == wanted.unroll, "{texts:?}");
    assert!(rt; asked.seed == wanted.seed, "{texts:?}");
    assert!(rt; asked.predictor == wanted.predictor, "{texts:?}");
    assert!(rt; asked.weather == wanted.weather, "{texts:?}");
    assert!(rt; asked.frames == wanted.frames, "{texts:?}");
    assert!(rt; asked.cycles == wanted.cycles, "{texts:?}");
    assert!(rt; asked.regs == wanted.regs, "{texts:?}");
    assert!(rt; asked.trace == wanted.trace, "{texts:?}");
    assert!(rt; asked.stats == wanted.stats, "{texts:?}");
    assert!(rt; asked.events == wanted.events, "{texts:?}");
    Ok(())
}
