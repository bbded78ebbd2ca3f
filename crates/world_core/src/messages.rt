//! The messages that the jobs of a world sent. A contract sees of each job all that it ever sent, oldest
//! first, and how many more messages take no memory.
ghost use Rattle.std.specs.Prelude.{◌≡◌, ◌≤◌, ℕ, ◌==◌, ◌+◌, ◌++◌, [], ◌∷◌, length, true, if◌then◌else◌, option_copied, OnOk, IsOk};
ghost use Rattle.private_store.specs.rules.Cluster.{posted};
ghost use Rattle.world_core.specs.Logs.{messages_of, sent_of, message_in, count_over, has_places, has_room};

use indexmap::IndexMap;
use memory_growth::{OutOfMemory, tables};
use obj_id::{Endpoint, ItemList, JobNo, Message};
use std::alloc::Global;
use std::marker::Model;
use std::mem;

/// From where to where messages are sent.
#[derive(Clone, Copy, PartialEq, Eq, Hash)]
pub struct Link {
    from: Endpoint,
    to: Endpoint,
}

/// The message of this number over a link, from 1.
#[derive(Clone, Copy, PartialEq, Eq, Hash)]
pub struct Numbered {
    link: Link,
    number: u64,
}

/// The messages of one job, each once.
#[derive(Drop)]
pub struct JobLog {
    // oldest first
    messages: IndexMap<Numbered, Message>,
    // how many went over each link
    counts: IndexMap<Link, u64>,
}

impl Model for JobLog {
    ghost use Rattle.indexmap.specs.IndexMap.{spare};
    ghost use Rattle.world_core.specs.Logs.{Log, sent_in, AreNumbered};

    ghost Value = { Log };

    ghost view = { λ l. record { sent = sent_in l.messages.entries; spare = spare l.messages; links = spare l.counts } };

    ghost invariant = { λ l. AreNumbered l.messages.entries l.counts.entries };
}

impl JobLog {
    /// No messages. Takes no memory.
    fn new(alloc: Global) -> JobLog
        ensures { result.sent ≡ [] }
    {
        JobLog {
            messages: IndexMap::new(alloc),
            counts: IndexMap::new(alloc),
        }
    }

    /// Makes room for so many messages more.
    fn reserve(&mut self, most: usize) -> Result<(), OutOfMemory>
        ensures sent { self.new.sent ≡ self.old.sent }
        ensures room { OnOk result (has_places most self.new ≡ true) }
    {
        tables::reserve_any(&mut self.counts, most)?;
        tables::reserve_any(&mut self.messages, most)
    }

    /// How many messages went over the link.
    fn count(&self, link: Link) -> u64
        ensures { result ≡ count_over self.now.sent link.from link.to }
    {
        match self.counts.get(&link) {
            Some(count) => *count,
            None => 0,
        }
    }

    /// The message of this number, from 1, that was sent over the link.
    fn find(&self, link: Link, number: u64) -> Option<&Message>
        ensures { option_copied result ≡ message_in self.now.sent link.from link.to number }
    {
        self.messages.get(&Numbered { link, number })
    }

    /// Adds a message that was sent. There is room for it: this takes no memory.
    fn push(&mut self, link: Link, message: Message)
        requires { has_places 1 self.old ≡ true }
        ensures sent { self.new.sent ≡ self.old.sent ++ record { from = link.from; to = link.to; message = message } ∷ [] }
        ensures spare { self.old.spare ≤ self.new.spare + 1 }
        ensures links { self.old.links ≤ self.new.links + 1 }
    {
        let count = self.count(link);
        // so that the next number is one
        prove!(count <= self.messages.len() as u64);
        let number = count + 1;
        let _ = tables::insert(&mut self.counts, link, number).unwrap();
        let numbered = Numbered { link, number };
        let _ = tables::insert(&mut self.messages, numbered, message).unwrap();
    }
}

/// The messages of all jobs.
#[derive(Drop)]
pub struct Messages {
    alloc: Global,
    logs: IndexMap<JobNo, JobLog>,
    // the log of the next job that sends for the first time
    fresh: JobLog,
}

impl Model for Messages {
    ghost use Rattle.std.specs.Prelude.{◌≡◌, []};
    ghost use Rattle.indexmap.specs.IndexMap.{spare};
    ghost use Rattle.world_core.specs.Logs.{AllLogs};

    ghost Value = { AllLogs };

    ghost view = { λ m. record { logs = m.logs.entries; spare = spare m.logs; fresh = m.fresh } };

    ghost invariant = { λ m. m.fresh.sent ≡ [] };
}

impl Messages {
    /// No messages. Takes no memory.
    pub fn new(alloc: Global) -> Messages
        ensures { result.logs ≡ [] }
    {
        Messages {
            alloc,
            logs: IndexMap::new(alloc),
            fresh: JobLog::new(alloc),
        }
    }

    /// Makes room for no more than `most` messages of the job. What was sent stays, whatever the result; a step that sends
    /// none takes no memory.
    pub fn reserve(&mut self, job: JobNo, most: usize) -> Result<(), OutOfMemory>
        ensures sent { messages_of self.new.logs ≡ messages_of self.old.logs }
        ensures room { OnOk result ((n : ℕ) → 1 ≤ n → n ≤ most → has_room self.new job n ≡ true) }
        ensures free { most ≡ 0 → IsOk result }
    {
        if most == 0 {
            return Ok(());
        }
        self.grow(job, most)
    }

    /// Makes room for so many messages of the job.
    fn grow(&mut self, job: JobNo, most: usize) -> Result<(), OutOfMemory>
        ensures sent { messages_of self.new.logs ≡ messages_of self.old.logs }
        ensures room { OnOk result (has_room self.new job most ≡ true) }
    {
        if let Some(log) = self.logs.get_mut(&job) {
            log.reserve(most)?;
            return Ok(());
        }
        self.fresh.reserve(most)?;
        tables::reserve(&mut self.logs, 1)
    }

    /// The message of this number, from 1, that the job sent from the one place to the other.
    pub fn find(&self, job: JobNo, from: Endpoint, to: Endpoint, number: u64) -> Option<&Message>
        ensures { option_copied result ≡ message_in (sent_of (messages_of self.now.logs) job.0) from to number }
    {
        let log = self.logs.get(&job)?;
        log.find(Link { from, to }, number)
    }

    /// Adds a message that the job sent. There is room for it: this takes no memory.
    pub fn send(&mut self, job: JobNo, from: Endpoint, to: Endpoint, message: Message)
        requires { has_room self.old job 1 ≡ true }
        ensures sent { (other : ℕ) → sent_of (messages_of self.new.logs) other
            ≡ (if job.0 == other then sent_of (messages_of self.old.logs) other ++ record { from = from; to = to; message = message } ∷ [] else sent_of (messages_of self.old.logs) other) }
        ensures room { (n : ℕ) → has_room self.old job (n + 1) ≡ true → has_room self.new job n ≡ true }
    {
        let link = Link { from, to };
        if let Some(log) = self.logs.get_mut(&job) {
            log.push(link, message);
            return;
        }
        let mut log = mem::replace(&mut self.fresh, JobLog::new(self.alloc));
        log.push(link, message);
        let _ = tables::insert(&mut self.logs, job, log).unwrap();
    }

    /// Adds the messages that a step sent for the job from the place. There is room for them: this takes no memory.
    pub fn add(&mut self, job: JobNo, from: Endpoint, posts: ItemList<(Endpoint, Message)>)
        requires { 1 ≤ length posts → has_room self.old job (length posts) ≡ true }
        ensures { (other : ℕ) → sent_of (messages_of self.new.logs) other ≡ (if job.0 == other then sent_of (messages_of self.old.logs) other ++ posted from posts else sent_of (messages_of self.old.logs) other) }
    {
        for (to, message) in posts.into_vec() {
            self.send(job, from, to, message);
        }
    }
}
