// What happens to a worker, as a case's lines say.
use flow_notes::{Event, Job, Names, read_event};
use io_ports::{NoMemory, PressureList};
use std::alloc::Global;
use std::collections::VecDeque;
use worker_ports::Wired;

/// What happens to a worker.
#[derive(Drop)]
pub struct Script {
    alloc: Global,
    /// What the connections give.
    pub answers: VecDeque<Wired>,
    /// The moments of the clock.
    pub moments: Vec<u64>,
    /// What is posted.
    pub jobs: Vec<Job>,
    /// What is published.
    pub published: Vec<PressureList>,
}

impl Script {
    pub fn new(alloc: Global) -> Self {
        Script {
            alloc,
            answers: VecDeque::new(alloc),
            moments: Vec::new(alloc),
            jobs: Vec::new(alloc),
            published: Vec::new(alloc),
        }
    }

    /// Takes up these lines. One that has no spelling says nothing.
    pub fn read(&mut self, names: &Names, lines: &[String]) -> Result<(), NoMemory> {
        for line in lines {
            self.line(names, line.as_str())?;
        }
        Ok(())
    }

    fn line(&mut self, names: &Names, line: &str) -> Result<(), NoMemory> {
        match line {
            "idle" => self.answer(Wired::Idle),
            "stop" => self.answer(Wired::Stop),
            line => match read_event(self.alloc, line.as_bytes(), names, false)? {
                Some(event) => self.take(event),
                None => Ok(()),
            },
        }
    }

    fn take(&mut self, event: Event) -> Result<(), NoMemory> {
        match event {
            Event::Accept { conn } => self.answer(Wired::Accept(conn)),
            Event::Join { conn, cluster } => self.answer(Wired::Join(conn, cluster)),
            Event::Read { conn, octets } => self.answer(Wired::Read(conn, octets)),
            Event::Gone { conn } => self.answer(Wired::Lost(conn)),
            Event::Tick { now } => self.tick(now),
            Event::Post { job, .. } => self.post(job),
            Event::Obey { pressures, .. } => self.publish(pressures),
            Event::Room { .. } | Event::Plain(_) => Ok(()),
        }
    }

    fn answer(&mut self, wired: Wired) -> Result<(), NoMemory> {
        self.answers.push_back(wired)?;
        Ok(())
    }

    fn tick(&mut self, now: u64) -> Result<(), NoMemory> {
        self.moments.push(now)?;
        Ok(())
    }

    fn post(&mut self, job: Job) -> Result<(), NoMemory> {
        self.jobs.push(job)?;
        Ok(())
    }

    fn publish(&mut self, pressures: PressureList) -> Result<(), NoMemory> {
        self.published.push(pressures)?;
        Ok(())
    }
}
