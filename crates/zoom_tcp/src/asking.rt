//! Asks hosts over TCP: does what `zoom_asking` says, and reports what happens on sockets.
ghost use Rattle.std.specs.Prelude.{◌≡◌, ◌<◌, ◌^◌, length, option_map, IfOk, OnOk};
ghost use Rattle.zoom_questions.specs.Askable.{AreFit, AreAskable};
ghost use Rattle.zoom_tcp.specs.Asking.{IsAsked, IsTracedAsk, asked_host, hosts_of, trace_beside};

use crate::limits::{Family, HostWaits, Limits};
use crate::names::{Names, addresses_in, resolve};
use crate::ready::Ready;
use crate::sockets::Sockets;
use crate::stopwatch::Stopwatch;
use crate::telling::{tell, tell_if};
use crate::waking::wake;
use crate::watch::Watch;
use bytes::Bytes;
use std::alloc::{AllocError, Global};
use std::io::Write;
use std::net::{Net, SocketAddr};
use std::time::{Clock, Duration};
use zber::Seq;
use zoom_asking::laws::{asked_end_law, given_up_law};
use zoom_asking::{Action, AskedHost, Asking, Manner, Report, Task};
use zoom_pool::{Meta, MetaSettings, Question};
use zoom_trace::{Notice, Recorder, Tracer};

/// What asking hosts left.
#[derive(Drop)]
pub struct Asked<T> {
    /// The connections and their facts.
    pub meta: Meta,
    /// What was noticed of the host of each connection.
    pub notices: Vec<Notice>,
    /// The trace that was given, grown by what was reported. No line of it waits to be written.
    pub trace: Option<Tracer<T>>,
}

/// Puts each question to the host at the address (`host:port`) with its number, if it has one (Z39.50-2003, 3.2). All
/// are connected to side by side, without threads. They are talked with at once or in order, as `manner` says. A host
/// costs its own connection alone if it cannot be reached, fails, or exceeds its limits. Nothing happens on the
/// connection of a question without an address.
///
/// `waits[c]` are the waiting times that the host of connection `c` has of its own. Where the list ends, or a time is
/// `None`, `limits` hold.
///
/// Hosts with an address in numbers are connected to first. Then the names are looked up, each once. A look-up waits
/// for the name service of the system, and nobody is served meanwhile. So before the first, and after each for as long
/// as it took, the hosts that were found are served.
///
/// If a trace is given, it gets lines: how hosts are asked, and then each report and action, the octets that came and
/// those to be sent, and what was noticed of the hosts. They are written before each wait. A trace that cannot be
/// written costs itself alone (`Tracer::has_failed`). Its first lines tell the same waiting times of all hosts, so if
/// `waits` is not empty, no trace is written, and `Asked::trace` is `None`.
///
/// Returns an error only if no memory is found.
pub fn ask<N: Net + Clock, V: Watch, T: Write + Drop>(
    alloc: Global,
    net: &N,
    questions: Vec<Question>,
    settings: MetaSettings,
    addresses: &[Option<Bytes>],
    manner: Manner,
    limits: Limits,
    waits: &[HostWaits],
    watch: &mut V,
    trace: Option<Tracer<T>>,
) -> Result<Asked<T>, AllocError>
    requires some { length questions.items < 2 ^ 32 }
    requires askable { AreAskable questions.items }
    requires fit { AreFit settings }
    requires equal { length addresses.now ≡ length questions.items }
    ensures asked { IfOk result
        (λ asked. IsAsked questions.items settings manner limits waits.now addresses.now asked.meta) }
    ensures traced { IfOk result (λ asked. IsTracedAsk T.contents questions.items settings manner limits waits.now
        addresses.now trace asked.meta asked.trace) }
{
    let hosts = hosts_of(alloc, addresses, &limits, waits)?;
    let host = limits.of_host();
    let total = limits.total_nanos();
    let stopwatch = Stopwatch::new(net);
    let now = stopwatch.now();
    let asking = Asking::new(
        alloc,
        Seq::from_vec(questions),
        settings,
        hosts.as_slice(),
        manner,
        total,
        now,
    )?;
    let mut recorder = Recorder::new(alloc, asking, trace_beside(waits, trace));
    recorder.begin(now, manner, host, total)?;
    let mut shell = Shell {
        alloc,
        net,
        family: limits.family,
        now,
        names: Names::new(alloc, now),
        sockets: Sockets::new(alloc, net, stopwatch, addresses.len())?,
    };
    shell.ask_all(&mut recorder, addresses, watch)?;
    let notices = shell.sockets.notices(alloc)?;
    let (meta, trace) = recorder.into_parts();
    asked_end_law();
    Ok(Asked {
        meta,
        notices,
        trace,
    })
}

/// A host for each address, with its own waiting times.
fn hosts_of(
    alloc: Global,
    addresses: &[Option<Bytes>],
    limits: &Limits,
    waits: &[HostWaits],
) -> Result<Vec<Option<AskedHost>>, AllocError>
    ensures { IfOk result (λ v. v.items ≡ hosts_of limits.now waits.now addresses.now) }
{
    let mut hosts = Vec::new(alloc);
    for c in 0..addresses.len() {
        hosts.push(host_of(&addresses[c], &limits.at(waits, c)))?;
    }
    Ok(hosts)
}

/// A host, if there is an address.
fn host_of(address: &Option<Bytes>, limits: &Limits) -> Option<AskedHost>
    ensures { result ≡ option_map (λ address. asked_host limits.now) address.now }
{
    match address {
        Some(_) => Some(limits.of_host()),
        None => None,
    }
}

/// The trace that is written: none if hosts have waiting times of their own.
fn trace_beside<T: Drop>(waits: &[HostWaits], trace: Option<T>) -> Option<T>
    ensures { result ≡ trace_beside waits.now trace }
{
    match waits {
        [] => trace,
        _ => None,
    }
}

/// The names and sockets of hosts that are asked.
#[derive(Drop)]
struct Shell<'a, N> {
    alloc: Global,
    net: &'a N,
    family: Family,
    /// The time at which the last thing happened that is known.
    now: u64,
    names: Names,
    sockets: Sockets<'a, N>,
}

impl<'a, N: Net + Clock> Shell<'a, N> {
    ghost use Rattle.std.specs.Prelude.{◌≡◌, ◌<◌, ◌^◌, true, length, IfOk, OnOk};
    ghost use Rattle.zoom_asking.specs.Askings.{IsOverAt};
    ghost use Rattle.zoom_trace.specs.Recording.{IsRecordedOn};
    ghost use Rattle.zoom_trace.specs.Tracing.{IsWrittenOut};
    ghost use Rattle.zoom_tcp.specs.Asking.{IsEndedOn};
    ghost use Rattle.zoom_asking.specs.declared.inquiry.Report.TheVariants as reports;
    ghost use Rattle.zoom_tcp.specs.Telling.{IsBegun, IsBegunIf, IsToldIf};

    /// Asks all hosts to their ends, and writes what is left of the trace.
    fn ask_all<V: Watch, T: Write + Drop>(
        &mut self,
        recorder: &mut Recorder<T>,
        addresses: &[Option<Bytes>],
        watch: &mut V,
    ) -> Result<(), AllocError>
        requires few { length recorder.old.asking.meta.pool.connections < 2 ^ 32 }
        requires named { length addresses.now < 2 ^ 32 }
        ensures ended { OnOk result (IsEndedOn T.contents recorder.old recorder.new) }
        ensures written { OnOk result (IsWrittenOut recorder.new.trace) }
    {
        self.begin(recorder, addresses)?;
        self.go_to_end(recorder, watch)?;
        recorder.write_out();
        Ok(())
    }

    /// Tells which hosts have an address in numbers, and notes the names of the others.
    #[tactic(auto, using(zoom_trace::proofs::Recorded::none_recorded))]
    fn begin<T: Write + Drop>(
        &mut self,
        recorder: &mut Recorder<T>,
        addresses: &[Option<Bytes>],
    ) -> Result<(), AllocError>
        requires few { length addresses.now < 2 ^ 32 }
        ensures { OnOk result (IsRecordedOn T.contents recorder.old recorder.new) }
    {
        for i in 0..addresses.len() {
            self.begin_if(recorder, i as u32, &addresses[i])?;
        }
        Ok(())
    }

    /// The same of one connection, if it has a host.
    #[tactic(auto, using(zoom_trace::proofs::Recorded::none_recorded))]
    fn begin_if<T: Write + Drop>(
        &mut self,
        recorder: &mut Recorder<T>,
        c: u32,
        name: &Option<Bytes>,
    ) -> Result<(), AllocError>
        ensures recorded { OnOk result (IsRecordedOn T.contents recorder.old recorder.new) }
        ensures begun { OnOk result (IsBegunIf T.contents self.old.now c name.now recorder.old recorder.new) }
    {
        match name {
            Some(name) => self.begin_one(recorder, c, name),
            None => Ok(()),
        }
    }

    /// Tells the address of a host whose name is one in numbers, and notes any other name.
    #[tactic(auto, using(zoom_trace::proofs::Recorded::none_recorded))]
    fn begin_one<T: Write + Drop>(
        &mut self,
        recorder: &mut Recorder<T>,
        c: u32,
        name: &Bytes,
    ) -> Result<(), AllocError>
        ensures recorded { OnOk result (IsRecordedOn T.contents recorder.old recorder.new) }
        ensures begun { OnOk result (IsBegun T.contents self.old.now c recorder.old recorder.new) }
    {
        match addresses_in(self.alloc, name.as_slice(), self.family)? {
            Some(found) => self.resolved(recorder, c, found.addresses, found.notice),
            None => self.names.put(c, name.clone()?),
        }
    }

    /// These are the addresses of a connection's host. If there are none, that is why.
    fn resolved<T: Write + Drop>(
        &mut self,
        recorder: &mut Recorder<T>,
        c: u32,
        addresses: Vec<SocketAddr>,
        notice: Notice,
    ) -> Result<(), AllocError>
        ensures recorded { OnOk result (IsRecordedOn T.contents recorder.old recorder.new) }
        ensures told { OnOk result (IsToldIf T.contents self.old.now c (reports.Resolved (length addresses.items))
            recorder.old recorder.new) }
    {
        let count = addresses.len();
        self.sockets.know(c, addresses, notice);
        tell(
            &self.sockets,
            recorder,
            self.now,
            c,
            Report::Resolved(count),
        )
    }

    /// Goes on until each connection is over, for 2^64 - 1 wakes at most. Returns whether they are over. What was
    /// reported is written before each wait.
    #[tactic(auto, using(zoom_trace::proofs::Recorded::none_recorded))]
    fn go<V: Watch, T: Write + Drop>(
        &mut self,
        recorder: &mut Recorder<T>,
        watch: &mut V,
    ) -> Result<bool, AllocError>
        requires few { length recorder.old.asking.meta.pool.connections < 2 ^ 32 }
        ensures recorded { OnOk result (IsRecordedOn T.contents recorder.old recorder.new) }
        ensures over { IfOk result (λ over. over ≡ true → IsOverAt recorder.new.asking true) }
    {
        for _ in 0..u64::MAX {
            self.act_all(recorder)?;
            let again = watch.look(recorder.meta());
            if recorder.is_over() {
                return Ok(true);
            }
            recorder.write_out();
            let most = self.look_up(recorder)?;
            self.now = wake(&mut self.sockets, recorder, shorter_of(most, again))?;
        }
        Ok(false)
    }

    /// Goes on until each connection is over. What is not over after 2^64 - 1 wakes is given up.
    fn go_to_end<V: Watch, T: Write + Drop>(
        &mut self,
        recorder: &mut Recorder<T>,
        watch: &mut V,
    ) -> Result<(), AllocError>
        requires few { length recorder.old.asking.meta.pool.connections < 2 ^ 32 }
        ensures { OnOk result (IsEndedOn T.contents recorder.old recorder.new) }
    {
        if self.go(recorder, watch)? {
            return Ok(());
        }
        given_up_law();
        recorder.give_up(self.now)?;
        Ok(())
    }

    /// Does all that is to be done.
    #[tactic(auto, using(zoom_trace::proofs::Recorded::none_recorded))]
    fn act_all<T: Write + Drop>(&mut self, recorder: &mut Recorder<T>) -> Result<(), AllocError>
        ensures { OnOk result (IsRecordedOn T.contents recorder.old recorder.new) }
    {
        for _ in 0..u64::MAX {
            if !self.act_next(recorder)? {
                return Ok(());
            }
        }
        Ok(())
    }

    /// Does what is to be done next. Returns whether there was anything. The time is read once it is done, since a host
    /// cannot answer before what it was sent.
    #[tactic(auto, using(zoom_trace::proofs::Recorded::none_recorded, zoom_trace::proofs::Recorded::one_recorded))]
    fn act_next<T: Write + Drop>(&mut self, recorder: &mut Recorder<T>) -> Result<bool, AllocError>
        ensures { OnOk result (IsRecordedOn T.contents recorder.old recorder.new) }
    {
        let next = recorder.next_action(self.now)?;
        let Some(action) = next else {
            return Ok(false);
        };
        let report = self.act(recorder, action)?;
        self.now = self.sockets.time();
        tell_if(&self.sockets, recorder, self.now, action.c, report)?;
        Ok(true)
    }

    /// Does what an action says. Returns what happened at once, if anything did.
    #[tactic(auto, using(zoom_trace::proofs::Recorded::none_recorded))]
    fn act<T: Write + Drop>(
        &mut self,
        recorder: &mut Recorder<T>,
        action: Action,
    ) -> Result<Option<Report>, AllocError>
        ensures { OnOk result (IsRecordedOn T.contents recorder.old recorder.new) }
    {
        let c = action.c;
        match action.task {
            Task::Connect(k) => self.sockets.connect(c, k),
            Task::Send => self.send(recorder, c),
            Task::Read => {
                self.sockets.read_on(c)?;
                Ok(None)
            }
            Task::Leave(k) => {
                self.sockets.leave(c, k);
                Ok(None)
            }
        }
    }

    /// Sends what waits on a connection.
    #[tactic(auto, using(zoom_trace::proofs::Recorded::none_recorded, zoom_trace::proofs::Recorded::one_recorded))]
    fn send<T: Write + Drop>(
        &mut self,
        recorder: &mut Recorder<T>,
        c: u32,
    ) -> Result<Option<Report>, AllocError>
        ensures { OnOk result (IsRecordedOn T.contents recorder.old recorder.new) }
    {
        if (c as usize) >= recorder.connections() {
            return Ok(None);
        }
        let Some(unsent) = self.sockets.unsent(c) else {
            return Ok(None);
        };
        recorder.outgoing(self.now, c, unsent)?;
        self.sockets.send(c)
    }

    /// Looks up the next name, if it is due. Returns how long to wait for sockets then.
    #[tactic(auto, using(zoom_trace::proofs::Recorded::none_recorded))]
    fn look_up<T: Write + Drop>(
        &mut self,
        recorder: &mut Recorder<T>,
    ) -> Result<Option<Duration>, AllocError>
        ensures { OnOk result (IsRecordedOn T.contents recorder.old recorder.new) }
    {
        let wake_at = recorder.wake_at();
        let Some(due_at) = self.names.due_at(self.sockets.is_idle()) else {
            return Ok(self.left(wake_at));
        };
        if self.now < due_at {
            let until = wake_at.unwrap_or(u64::MAX).min(due_at);
            return Ok(self.left(Some(until)));
        }
        self.look_up_next(recorder)?;
        Ok(Some(Duration::ZERO))
    }

    /// Looks up the next name, and tells what was found.
    #[tactic(auto, using(zoom_trace::proofs::Recorded::none_recorded))]
    fn look_up_next<T: Write + Drop>(
        &mut self,
        recorder: &mut Recorder<T>,
    ) -> Result<(), AllocError>
        ensures { OnOk result (IsRecordedOn T.contents recorder.old recorder.new) }
    {
        let Some((name, connections)) = self.names.next()? else {
            return Ok(());
        };
        let before = self.sockets.time();
        let found = resolve(self.alloc, self.net, name.as_slice(), self.family)?;
        self.now = self.sockets.time();
        self.names.pass(before, self.now);
        for i in 0..connections.len() {
            self.resolved(
                recorder,
                connections[i],
                found.addresses.clone()?,
                found.notice,
            )?;
        }
        Ok(())
    }

    /// How long to wait until this time. `None` if no time is given.
    fn left(&self, until: Option<u64>) -> Option<Duration> {
        if self.sockets.is_busy() {
            return Some(Duration::ZERO);
        }
        Some(Duration::from_nanos(until?.saturating_sub(self.now)))
    }
}

/// The shorter of two waits, each `None` if it has no end.
fn shorter_of(one: Option<Duration>, other: Option<Duration>) -> Option<Duration> {
    match (one, other) {
        (Some(one), Some(other)) => Some(one.min(other)),
        (Some(one), None) => Some(one),
        (None, other) => other,
    }
}
