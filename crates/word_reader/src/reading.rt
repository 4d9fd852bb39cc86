// What the words behind the command's own have said so far (our own choice).
ghost use Rattle.std.specs.Prelude.{◌≡◌, ◌<◌, length, option_map, map, string_bytes};
ghost use Rattle.word_reader.specs.Reading as manners;
ghost use Rattle.word_reader.specs.Reading.{reading_of, word_at, opening, read_by, step, idle};
ghost use Rattle.word_reader.specs.Reading.{for_workers, counted_workers, for_units, counted_units};
ghost use Rattle.word_reader.specs.Reading.{for_watch, watched, plain, is_option, placed, placed_second};
ghost use Rattle.word_reader.specs.Reading.{with_workers, with_units};

use crate::number::number;

/// The option that waits for its number.
#[derive(Clone, Copy, PartialEq, Eq)]
pub enum Waiting {
    Nothing,
    Workers,
    Units,
}

/// Which options a command has, and whether it takes two positional words.
#[derive(Clone, Copy)]
pub struct Manner {
    pub has_workers: bool,
    pub has_units: bool,
    pub has_watch: bool,
    pub takes_two: bool,
}

/// What the words so far have said: the places of the positional words, and the options.
#[derive(Clone, Copy)]
pub struct Reading {
    pub place: Option<usize>,
    pub second: Option<usize>,
    pub workers: Option<u32>,
    pub units: Option<u32>,
    pub watch: bool,
    pub waiting: Waiting,
    /// Whether `--` was read, behind which every word is positional.
    pub trailing: bool,
}

fn start(words: &[String]) -> Reading
    ensures { reading_of (map string_bytes words.now) result ≡ opening }
{
    Reading {
        place: None,
        second: None,
        workers: None,
        units: None,
        watch: false,
        waiting: Waiting::Nothing,
        trailing: false,
    }
}

// The word is the second positional, where the command takes two.
fn place_second(words: &[String], manner: Manner, reading: Reading, i: usize) -> Option<Reading>
    requires { i < length words.now }
    ensures { option_map (reading_of (map string_bytes words.now)) result
        ≡ placed_second manner (reading_of (map string_bytes words.now) reading)
        (word_at words.now i) }
{
    if !manner.takes_two || reading.second.is_some() {
        return None;
    }
    Some(Reading {
        second: Some(i),
        ..reading
    })
}

// The word is positional.
fn place(words: &[String], manner: Manner, reading: Reading, i: usize) -> Option<Reading>
    requires { i < length words.now }
    ensures { option_map (reading_of (map string_bytes words.now)) result
        ≡ placed manner (reading_of (map string_bytes words.now) reading)
        (word_at words.now i) }
{
    if reading.place.is_some() {
        return place_second(words, manner, reading, i);
    }
    Some(Reading {
        place: Some(i),
        ..reading
    })
}

fn set_workers(words: &[String], reading: Reading, text: &[u8]) -> Option<Reading>
    ensures { option_map (reading_of (map string_bytes words.now)) result
        ≡ with_workers (reading_of (map string_bytes words.now) reading) text.now }
{
    match number(1, 16, text) {
        Some(n) => Some(Reading {
            workers: Some(n),
            waiting: Waiting::Nothing,
            ..reading
        }),
        None => None,
    }
}

fn set_units(words: &[String], reading: Reading, text: &[u8]) -> Option<Reading>
    ensures { option_map (reading_of (map string_bytes words.now)) result
        ≡ with_units (reading_of (map string_bytes words.now) reading) text.now }
{
    match number(1, 10_000_000, text) {
        Some(n) => Some(Reading {
            units: Some(n),
            waiting: Waiting::Nothing,
            ..reading
        }),
        None => None,
    }
}

// Whether a word begins with `-` and is longer.
fn looks_like_option(word: &[u8]) -> bool
    ensures { result ≡ is_option word.now }
{
    word.len() > 1 && word[0] == b'-'
}

fn take_plain(words: &[String], manner: Manner, reading: Reading, i: usize) -> Option<Reading>
    requires { i < length words.now }
    ensures { option_map (reading_of (map string_bytes words.now)) result
        ≡ plain manner (reading_of (map string_bytes words.now) reading)
        (word_at words.now i) }
{
    let word = words[i].as_str();
    if looks_like_option(word.as_bytes()) {
        return None;
    }
    place(words, manner, reading, i)
}

fn take_watched(words: &[String], manner: Manner, reading: Reading, i: usize) -> Option<Reading>
    requires { i < length words.now }
    ensures { option_map (reading_of (map string_bytes words.now)) result
        ≡ watched manner (reading_of (map string_bytes words.now) reading)
        (word_at words.now i) }
{
    let word = words[i].as_str();
    if word != "--watch" {
        return take_plain(words, manner, reading, i);
    }
    if reading.watch {
        return None;
    }
    Some(Reading {
        watch: true,
        ..reading
    })
}

fn take_watch(words: &[String], manner: Manner, reading: Reading, i: usize) -> Option<Reading>
    requires { i < length words.now }
    ensures { option_map (reading_of (map string_bytes words.now)) result
        ≡ for_watch manner (reading_of (map string_bytes words.now) reading)
        (word_at words.now i) }
{
    if manner.has_watch {
        take_watched(words, manner, reading, i)
    } else {
        take_plain(words, manner, reading, i)
    }
}

fn count_units(words: &[String], manner: Manner, reading: Reading, i: usize) -> Option<Reading>
    requires { i < length words.now }
    ensures { option_map (reading_of (map string_bytes words.now)) result
        ≡ counted_units manner (reading_of (map string_bytes words.now) reading)
        (word_at words.now i) }
{
    let word = words[i].as_str();
    if word == "--units" {
        if reading.units.is_some() {
            return None;
        }
        return Some(Reading {
            waiting: Waiting::Units,
            ..reading
        });
    }
    let bytes = word.as_bytes();
    if bytes.starts_with(b"--units=") {
        if reading.units.is_some() {
            return None;
        }
        return set_units(words, reading, &bytes[8..]);
    }
    take_watch(words, manner, reading, i)
}

fn take_units(words: &[String], manner: Manner, reading: Reading, i: usize) -> Option<Reading>
    requires { i < length words.now }
    ensures { option_map (reading_of (map string_bytes words.now)) result
        ≡ for_units manner (reading_of (map string_bytes words.now) reading)
        (word_at words.now i) }
{
    if manner.has_units {
        count_units(words, manner, reading, i)
    } else {
        take_plain(words, manner, reading, i)
    }
}

fn count_workers(words: &[String], manner: Manner, reading: Reading, i: usize) -> Option<Reading>
    requires { i < length words.now }
    ensures { option_map (reading_of (map string_bytes words.now)) result
        ≡ counted_workers manner (reading_of (map string_bytes words.now) reading)
        (word_at words.now i) }
{
    let word = words[i].as_str();
    if word == "--workers" {
        if reading.workers.is_some() {
            return None;
        }
        return Some(Reading {
            waiting: Waiting::Workers,
            ..reading
        });
    }
    let bytes = word.as_bytes();
    if bytes.starts_with(b"--workers=") {
        if reading.workers.is_some() {
            return None;
        }
        return set_workers(words, reading, &bytes[10..]);
    }
    take_units(words, manner, reading, i)
}

fn take_workers(words: &[String], manner: Manner, reading: Reading, i: usize) -> Option<Reading>
    requires { i < length words.now }
    ensures { option_map (reading_of (map string_bytes words.now)) result
        ≡ for_workers manner (reading_of (map string_bytes words.now) reading)
        (word_at words.now i) }
{
    if manner.has_workers {
        count_workers(words, manner, reading, i)
    } else {
        take_units(words, manner, reading, i)
    }
}

fn take_idle(words: &[String], manner: Manner, reading: Reading, i: usize) -> Option<Reading>
    requires { i < length words.now }
    ensures { option_map (reading_of (map string_bytes words.now)) result
        ≡ idle manner (reading_of (map string_bytes words.now) reading)
        (word_at words.now i) }
{
    let word = words[i].as_str();
    if word == "--" {
        return Some(Reading {
            trailing: true,
            ..reading
        });
    }
    take_workers(words, manner, reading, i)
}

fn take(words: &[String], manner: Manner, reading: Reading, i: usize) -> Option<Reading>
    requires { i < length words.now }
    ensures { option_map (reading_of (map string_bytes words.now)) result
        ≡ step manner (reading_of (map string_bytes words.now) reading)
        (word_at words.now i) }
{
    let word = words[i].as_str();
    if reading.trailing {
        return place(words, manner, reading, i);
    }
    match reading.waiting {
        Waiting::Nothing => take_idle(words, manner, reading, i),
        Waiting::Workers => set_workers(words, reading, word.as_bytes()),
        Waiting::Units => set_units(words, reading, word.as_bytes()),
    }
}

/// What the words say, where they are no more positional words and no other options than the
/// command has.
pub fn walk(manner: Manner, words: &[String]) -> Option<Reading>
    ensures { option_map (reading_of (map string_bytes words.now)) result
        ≡ read_by manner words.now }
{
    let mut reading = start(words);
    for i in 0..words.len() {
        match take(words, manner, reading, i) {
            Some(next) => reading = next,
            None => return None,
        }
    }
    match reading.waiting {
        Waiting::Nothing => Some(reading),
        _ => None,
    }
}

/// The manner of `run`.
pub fn run_manner() -> Manner
    ensures { result ≡ manners.run_manner }
{
    Manner {
        has_workers: true,
        has_units: true,
        has_watch: true,
        takes_two: false,
    }
}

/// The manner of `record`.
pub fn record_manner() -> Manner
    ensures { result ≡ manners.record_manner }
{
    Manner {
        has_watch: false,
        ..run_manner()
    }
}

/// The manner of `replay`.
pub fn replay_manner() -> Manner
    ensures { result ≡ manners.replay_manner }
{
    Manner {
        has_workers: false,
        has_units: true,
        has_watch: false,
        takes_two: true,
    }
}

/// The manner of a command without options.
pub fn plain_manner() -> Manner
    ensures { result ≡ manners.plain_manner }
{
    Manner {
        has_workers: false,
        has_units: false,
        has_watch: false,
        takes_two: false,
    }
}
