//! The scheduler's core as a plain program, written from the rules alone: a list of pending jobs, which each call
//! searches.
//!
//! A call returns `None` if its task is not in the set, or memory runs out.
use mc_model::{How, Row};
use mc_task::{JobId, Level, Rule, Task, TaskNo, TaskSet};
use mode_core::{GrantFault, Granted, IdleFault, NotOut, ReleaseFault, Released};
use std::alloc::{AllocError, Global};

// A pending job: its release time, and the ticks that it has had.
#[derive(Clone, Copy)]
struct Pending {
    job: JobId,
    release: u64,
    used: u32,
}

// What is stored of a task: how many releases there were, and from when the next one is allowed.
#[derive(Clone, Copy)]
struct Slot {
    count: u32,
    next: u64,
}

/// A schedule that grows by one event a call.
#[derive(Drop)]
pub struct PlainCore {
    set: TaskSet,
    rule: Rule,
    places: usize,
    rows: Vec<Row>,
    pending: Vec<Pending>,
    slots: Vec<Slot>,
    held: Vec<JobId>,
    out: Option<JobId>,
    ticks: u64,
    high: bool,
}

impl PlainCore {
    pub fn new(
        alloc: Global,
        set: TaskSet,
        rule: Rule,
        places: usize,
    ) -> Result<PlainCore, AllocError> {
        let slots = vec![in alloc; Slot { count: 0, next: 0 }; set.len() as usize]?;
        Ok(PlainCore {
            set,
            rule,
            places,
            rows: Vec::new(alloc),
            pending: Vec::new(alloc),
            slots,
            held: Vec::new(alloc),
            out: None,
            ticks: 0,
            high: false,
        })
    }

    pub fn rows(&self) -> &[Row] {
        &self.rows
    }

    pub fn out(&self) -> Option<JobId> {
        self.out
    }

    pub fn high_mode(&self) -> bool {
        self.high
    }

    pub fn ticks_begun(&self) -> u64 {
        match self.out {
            Some(_) => self.ticks.saturating_add(1),
            None => self.ticks,
        }
    }

    pub fn chosen(&self) -> Option<JobId> {
        Some(self.first()?.job)
    }

    pub fn release(&mut self, task: TaskNo) -> Option<Result<Released, ReleaseFault>> {
        let period = self.set.get(task)?.period;
        if let Some(job) = self.out {
            if job.task == task {
                return Some(Err(ReleaseFault::Running { job }));
            }
        }
        let at = self.ticks_begun();
        let full = self.is_full();
        let slot = self.slots.get_mut((task.0 as usize).checked_sub(1)?)?;
        if at < slot.next {
            return Some(Err(ReleaseFault::TooSoon { next: slot.next }));
        }
        if full {
            return Some(Err(ReleaseFault::Full));
        }
        slot.count = slot.count.checked_add(1)?;
        slot.next = at.checked_add(u64::from(period))?;
        let job = JobId {
            task,
            count: slot.count,
        };
        self.add_release(job, at)
    }

    pub fn grant(&mut self, task: TaskNo) -> Result<Granted, GrantFault> {
        if let Some(job) = self.out {
            return Err(GrantFault::TickOut { job });
        }
        let full = self.is_full();
        match self.first() {
            Some(first) if first.job.task == task => {
                if full {
                    return Err(GrantFault::Full);
                }
                self.out = Some(first.job);
                Ok(Granted {
                    job: first.job,
                    at: self.ticks,
                    before: first.used,
                })
            }
            first => Err(GrantFault::NotChosen {
                chosen: first.map(|x| x.job),
            }),
        }
    }

    pub fn outcome(&mut self, job: JobId, done: bool) -> Option<Result<How, NotOut>> {
        let out = self.out;
        if out != Some(job) {
            return Some(Err(NotOut { given: job, out }));
        }
        let used = self.first()?.used.checked_add(1)?;
        let how = if done {
            How::Done
        } else {
            self.how(job, used)?
        };
        self.rows.push(Row::Tick { job, how }).ok()?;
        self.ticks = self.ticks.checked_add(1)?;
        self.out = None;
        self.after_tick(job, used, how);
        for k in 0..self.held.len() {
            let job = *self.held.get(k)?;
            self.write_release(job)?;
        }
        self.held.clear();
        Some(Ok(how))
    }

    pub fn idle(&mut self) -> Option<Result<u64, IdleFault>> {
        if let Some(job) = self.out {
            return Some(Err(IdleFault::TickOut { job }));
        }
        if let Some(job) = self.chosen() {
            return Some(Err(IdleFault::Pending { job }));
        }
        if self.is_full() {
            return Some(Err(IdleFault::Full));
        }
        let tick = self.ticks;
        self.rows.push(Row::Idle).ok()?;
        self.ticks = tick.checked_add(1)?;
        self.high = false;
        Some(Ok(tick))
    }

    // Whether the capacity is used up, by rows, held releases and the granted tick.
    fn is_full(&self) -> bool {
        let out = match self.out {
            Some(_) => 1,
            None => 0,
        };
        let used = self.rows.len().saturating_add(self.held.len());
        used.saturating_add(out) >= self.places
    }

    // Holds the release while a tick is granted, and writes it otherwise.
    fn add_release(&mut self, job: JobId, at: u64) -> Option<Result<Released, ReleaseFault>> {
        if self.out.is_some() {
            self.held.push(job).ok()?;
            return Some(Ok(Released::Held { job, at }));
        }
        Some(Ok(if self.write_release(job)? {
            Released::Kept { job, at }
        } else {
            Released::Dropped { job, at }
        }))
    }

    // Writes the row of a release, and returns whether the release is kept.
    fn write_release(&mut self, job: JobId) -> Option<bool> {
        let kept = !self.high || is_high(&self.set, job.task);
        self.rows.push(Row::Release { job, kept }).ok()?;
        if kept {
            let pending = Pending {
                job,
                release: self.ticks,
                used: 0,
            };
            self.pending.push(pending).ok()?;
        }
        Some(kept)
    }

    // The outcome of the job's tick, which is its u-th, if the job is not done.
    fn how(&self, job: JobId, u: u32) -> Option<How> {
        let task = self.set.get(job.task)?;
        let switches = self.rule != Rule::Plain && !self.high && task.level == Level::High;
        Some(if u == task.high {
            How::Stop
        } else if switches && u == task.low {
            How::Over
        } else {
            How::More
        })
    }

    // Counts the tick. A tick that ends its job removes it, and an overrun discards the low jobs.
    fn after_tick(&mut self, job: JobId, used: u32, how: How) {
        for x in self.pending.iter_mut() {
            if x.job == job {
                x.used = used;
            }
        }
        match how {
            How::More => {}
            How::Done | How::Stop => self.pending.retain(|x| x.job != job),
            How::Over => {
                self.high = true;
                let set = &self.set;
                self.pending.retain(|x| is_high(set, x.job.task));
            }
        }
    }

    // The pending job with the least key; of equal keys, the one with the lowest task number.
    fn first(&self) -> Option<Pending> {
        let mut first: Option<Pending> = None;
        for x in &self.pending {
            first = match first {
                Some(y) if self.order(&y) <= self.order(x) => Some(y),
                _ => Some(*x),
            };
        }
        first
    }

    // The order in which jobs run: by the key in units of 1/q tick, then by the task's number.
    fn order(&self, x: &Pending) -> (u128, u32) {
        let number = x.job.task.0;
        let Some(task) = self.set.get(x.job.task) else {
            return (u128::MAX, number);
        };
        let release = u128::from(x.release);
        let period = u128::from(task.period);
        let key = match self.rule {
            Rule::Plain => release.saturating_add(period),
            Rule::Virtual { p, q } => {
                let scale = if task.level == Level::High && !self.high {
                    p
                } else {
                    q
                };
                let start = release.saturating_mul(u128::from(q));
                start.saturating_add(period.saturating_mul(u128::from(scale)))
            }
        };
        (key, number)
    }
}

// Whether the task is high.
fn is_high(set: &TaskSet, task: TaskNo) -> bool {
    match set.get(task) {
        Some(task) => task.level == Level::High,
        None => false,
    }
}
