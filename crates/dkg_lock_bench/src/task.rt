//! What is to be measured.
use std::alloc::Global;
use std::{env, io};

/// Through what the calls are made.
#[derive(Clone, Copy)]
pub enum Subject {
    Lock,
    Mutex,
    Turns,
}

/// How many threads call at once.
#[derive(Clone, Copy)]
pub enum Threads {
    One,
    Two,
    Four,
}

impl Threads {
    /// The number of threads.
    pub fn count(self) -> u64 {
        match self {
            Threads::One => 1,
            Threads::Two => 2,
            Threads::Four => 4,
        }
    }
}

#[derive(Clone, Copy)]
pub struct Task {
    pub subject: Subject,
    pub threads: Threads,
    /// The rounds of arithmetic of a turn.
    pub rounds: u64,
    /// The calls of each thread.
    pub calls: u64,
}

fn subject_of(word: &str) -> Option<Subject> {
    match word {
        "lock" => Some(Subject::Lock),
        "mutex" => Some(Subject::Mutex),
        "turns" => Some(Subject::Turns),
        _ => None,
    }
}

fn threads_of(word: &str) -> Option<Threads> {
    match word {
        "1" => Some(Threads::One),
        "2" => Some(Threads::Two),
        "4" => Some(Threads::Four),
        _ => None,
    }
}

fn task_of(words: &[String]) -> Option<Task> {
    match words {
        [subject, threads, rounds, calls] => Some(Task {
            subject: subject_of(subject.as_str())?,
            threads: threads_of(threads.as_str())?,
            rounds: rounds.parse().ok()?,
            calls: calls.parse().ok()?,
        }),
        _ => None,
    }
}

/// The task that the words of the command line name.
pub fn read<R: env::Env + AllocGlobal>(rt: &R) -> io::Result<Option<Task>> {
    let alloc: Global = rt.alloc();
    let words: Vec<String> = env::args(rt)?.skip(1).collect(alloc)?;
    Ok(task_of(words.as_slice()))
}
