//! The target: what it does with each APDU that it receives, and which replies it hands out.
ghost use Rattle.std.specs.Prelude.{◌≡◌, ◌<◌, ◌^◌, [], ◌∷◌, ◌++◌, List, None, length, IfOk, IfErr, IfSome, OnOk, OnErr};
ghost use Rattle.std.specs.List.{All};
ghost use Rattle.zapdu.specs.declared.apdu.Apdu.{Apdu};
ghost use Rattle.zapdu.specs.declared.apdu.Apdu.TheVariants as apdus;
ghost use Rattle.ztarget.specs.Faults.{match_fault};
ghost use Rattle.ztarget.specs.Searching.{entries_in, found_places};
ghost use Rattle.ztarget.specs.Keeping.{AreHits, named_set};
ghost use Rattle.ztarget.specs.Replies.{close_reply, owed_to_init, owed_to_close, owed_to_search, owed_to_search_unless, owed_to_present, found_by_query};
ghost use Rattle.ztarget.specs.Responding.{search_failed, presented};
ghost use Rattle.ztarget.specs.Standing.{Open, put_set, set_named};
ghost use Rattle.ztarget.specs.declared.database.Database.{Database};
ghost use Rattle.ztarget.specs.declared.settings.TargetSettings.{TargetSettings};
ghost use Rattle.ztarget.specs.Receiving.{new_target, with_reply, TargetReceiveStep, After, AfterReceive, is_close, with_released, TargetReleaseStep, TakeOutStep, IsRefusal};
ghost use Rattle.ztarget.specs.Levels.{HasElement};
ghost use Rattle.ztarget.specs.TargetStates.{terms_of};

use crate::database::Database;
use crate::error::{MatchError, TargetError};
use crate::fault::Fault;
use crate::indexed::{Indexed, with_indexes};
use crate::init::{init_response, is_accepted, terms};
use crate::phase::{AssociationPhase, Terms};
use crate::present::presented;
use crate::query::{find_hits, matching_places};
use crate::result_set::ResultSet;
use crate::search::{search_failed, search_found};
use crate::search_fault::search_fault;
use crate::sets::ResultSets;
use crate::settings::TargetSettings;
use bytes::Bytes;
use std::alloc::{AllocError, Global};
use std::collections::VecDeque;
use std::marker::Model;
use zapdu::{
    Apdu, Close, InitRequest, PresentRequest, PresentResponse, SearchRequest, SearchResponse,
};
use zber::Duplicate;
use zquery_rpn::Query;

/// A target of Z39.50 with databases in memory (Z39.50-2003, 3.2). It owes each request that it takes one reply, a
/// function of the requests received up to it. It hands the replies out in any order, a Close last.
#[derive(Drop)]
pub struct Target {
    alloc: Global,
    databases: Vec<Indexed>,
    settings: TargetSettings,
    phase: AssociationPhase,
    sets: ResultSets,
    pending: VecDeque<Apdu>,
}

impl Model for Target {
    ghost use Rattle.std.specs.Prelude.{◌<◌, ◌^◌, length};
    ghost use Rattle.ztarget.specs.Receiving.{TargetState};

    ghost Value = { TargetState };

    ghost use Rattle.std.specs.Coded.{codes};
    ghost use Rattle.zber.specs.Coding.{coded_element};
    ghost use Rattle.zquery_rpn.specs.Coding.{coded_query};

    ghost coded = { Prim.hlevel (codes, coded_element, coded_query) };

    ghost use Rattle.ztarget.specs.Searching.{entries_in};
    ghost use Rattle.ztarget.specs.TargetStates.{phase_state};
    ghost use Rattle.std.specs.List.{All};
    ghost use Rattle.ztarget.specs.Keeping.{AreHitSets, sets_of};
    ghost use Rattle.ztarget.specs.Levels.{HasElement};

    ghost view = { λ t. record {
      databases = t.databases.items;
      settings = t.settings;
      association = record { state = phase_state t.phase; sets = sets_of t.databases.items t.sets };
      pending = t.pending.items;
    } };

    ghost invariant = { λ t. (length (entries_in t.databases.items) < 2 ^ 32) × All HasElement t.pending.items
        × AreHitSets t.databases.items t.sets };
}

/// Returns the reply to a Close: reason 0, finished, and the same reference id.
#[tactic(auto, using(crate::proofs::ReplyElements::close_element))]
fn close_reply(alloc: Global, close: &Close) -> Result<Close, AllocError>
    ensures value { IfOk result (λ reply. reply ≡ close_reply close.now) }
    ensures element { IfOk result (λ reply. HasElement (apdus.Close reply)) }
{
    Ok(Close {
        reference_id: close.reference_id.duplicate(alloc)?,
        close_reason: 0,
        diagnostic_information: None,
        resource_report_format: None,
        resource_report: None,
        other_info: None,
    })
}

/// Returns whether an APDU is a Close.
fn is_close(apdu: &Apdu) -> bool
    ensures { result ≡ is_close apdu.now }
{
    match apdu {
        Apdu::Close(_) => true,
        _ => false,
    }
}

/// Takes pending reply `k` out, if it may be released.
fn take_out(pending: &mut VecDeque<Apdu>, k: usize) -> Option<Apdu>
    ensures { TakeOutStep pending.old.items k result pending.new.items }
{
    let count = pending.len();
    if k >= count || (is_close(&pending[k]) && count > 1) {
        return None;
    }
    pending.remove(k)
}

impl Target {
    /// Creates a target that has received nothing. The databases have fewer than 4,294,967,296 entries together.
    ///
    /// Give the databases distinct names, and a size of at least 1. A search looks in all databases that have the name.
    /// If the size is below 1, each record is too large.
    ///
    /// An error only if no memory is found.
    #[tactic(auto, using(crate::proofs::Histories::at_first))]
    pub fn new(
        alloc: Global,
        databases: Vec<Database>,
        settings: TargetSettings,
    ) -> Result<Target, AllocError>
        requires { length (entries_in databases.items) < 2 ^ 32 }
        ensures value { IfOk result (λ target. target ≡ new_target databases.items settings) }
        ensures after { IfOk result (λ target. After databases.items settings [] [] target) }
    {
        Ok(Target {
            alloc,
            databases: with_indexes(alloc, databases)?,
            settings,
            phase: AssociationPhase::Fresh,
            sets: ResultSets::new(alloc),
            pending: VecDeque::new(alloc),
        })
    }

    /// Appends the response to Init to the pending replies, and opens the association or ends it.
    fn begin(&mut self, request: &InitRequest) -> Result<(), AllocError>
        ensures ok { OnOk result (self.new ≡ with_reply self.old
            (owed_to_init self.old.settings self.old.association.sets request.now)) }
        ensures err { OnErr result (self.new ≡ self.old) }
    {
        let settings = self.settings;
        let response = init_response(self.alloc, settings, request)?;
        self.pending.push_back(Apdu::InitResponse(response))?;
        self.phase = if is_accepted(settings, &request.protocol_version) {
            AssociationPhase::Open(terms(settings, request))
        } else {
            AssociationPhase::Ended
        };
        Ok(())
    }

    /// Appends the reply to a Close to the pending replies, and ends the association.
    fn close(&mut self, close: &Close) -> Result<(), AllocError>
        ensures ok { OnOk result (self.new ≡ with_reply self.old (owed_to_close self.old.association.sets close.now)) }
        ensures err { OnErr result (self.new ≡ self.old) }
    {
        let reply = close_reply(self.alloc, close)?;
        self.pending.push_back(Apdu::Close(reply))?;
        self.phase = AssociationPhase::Ended;
        Ok(())
    }

    /// Appends the response to a search to the pending replies, and keeps its result set.
    fn keep(
        &mut self,
        response: SearchResponse,
        name: Bytes,
        set: ResultSet,
    ) -> Result<(), AllocError>
        requires element { HasElement (apdus.SearchResponse response) }
        requires stand { AreHits self.old.databases set }
        ensures ok { OnOk result (self.new ≡ record self.old {
          association = record {
            state = self.old.association.state;
            sets = put_set self.old.association.sets (named_set self.old.databases (name, set));
          };
          pending = self.old.pending ++ apdus.SearchResponse response ∷ [];
        }) }
        ensures err { OnErr result (self.new ≡ self.old) }
    {
        self.pending.push_back(Apdu::SearchResponse(response))?;
        match self.sets.put(name, set) {
            Ok(()) => Ok(()),
            Err(error) => {
                drop(self.pending.pop_back());
                Err(error)
            }
        }
    }

    /// Appends the response to a search that fails to the pending replies.
    fn fail(&mut self, request: &SearchRequest, fault: Fault) -> Result<(), AllocError>
        ensures ok { OnOk result (self.new
            ≡ record self.old {
              pending = self.old.pending
                  ++ apdus.SearchResponse (search_failed request.now fault) ∷ [];
            }) }
        ensures err { OnErr result (self.new ≡ self.old) }
    {
        let response = search_failed(self.alloc, request, fault)?;
        self.pending.push_back(Apdu::SearchResponse(response))?;
        Ok(())
    }

    /// Appends the response to a search without a fault to the pending replies, and keeps its result set.
    fn find(&mut self, terms: Terms, request: &SearchRequest) -> Result<(), AllocError>
        requires { self.old.association.state ≡ Open (terms_of terms) }
        ensures ok { OnOk result (self.new ≡ with_reply self.old
            (owed_to_search_unless (terms_of terms) self.old.association.sets request.now
            (found_by_query self.old.databases request.now request.now.query) None)) }
        ensures err { OnErr result (self.new ≡ self.old) }
    {
        let found = find_hits(self.alloc, &self.databases, request)?;
        let response = search_found(self.alloc, terms.size, request, &self.databases, &found)?;
        let name = request.result_set_name.clone()?;
        self.keep(response, name, ResultSet::new(found))
    }

    /// Appends the response to a search to the pending replies.
    fn search(&mut self, terms: Terms, request: &SearchRequest) -> Result<(), AllocError>
        requires { self.old.association.state ≡ Open (terms_of terms) }
        ensures ok { OnOk result (self.new
            ≡ with_reply self.old
            (owed_to_search self.old.databases (terms_of terms) self.old.association.sets request.now)) }
        ensures err { OnErr result (self.new ≡ self.old) }
    {
        match search_fault(self.alloc, &self.databases, &self.sets, terms, request)? {
            Some(fault) => self.fail(request, fault),
            None => self.find(terms, request),
        }
    }

    /// Returns the response to a Present.
    fn presented(
        &self,
        terms: Terms,
        request: &PresentRequest,
    ) -> Result<PresentResponse, AllocError>
        ensures value { IfOk result (λ response. response
            ≡ presented (terms_of terms) request.now (set_named self.now.association.sets request.now.result_set_id)) }
        ensures element { IfOk result (λ response. HasElement (apdus.PresentResponse response)) }
    {
        let found = self.sets.hits_of(&request.result_set_id);
        presented(self.alloc, terms, request, &self.databases, found)
    }

    /// Appends the response to a Present to the pending replies.
    fn present(&mut self, terms: Terms, request: &PresentRequest) -> Result<(), AllocError>
        requires { self.old.association.state ≡ Open (terms_of terms) }
        ensures ok { OnOk result (self.new ≡ with_reply self.old
            (owed_to_present (terms_of terms) self.old.association.sets request.now)) }
        ensures err { OnErr result (self.new ≡ self.old) }
    {
        let response = self.presented(terms, request)?;
        self.pending.push_back(Apdu::PresentResponse(response))?;
        Ok(())
    }

    /// Receives a search.
    fn receive_search(&mut self, request: &SearchRequest) -> Result<(), TargetError>
        ensures { TargetReceiveStep self.old (apdus.SearchRequest request.now) result self.new }
    {
        match self.phase {
            AssociationPhase::Open(terms) => Ok(self.search(terms, request)?),
            AssociationPhase::Fresh | AssociationPhase::Ended => Err(TargetError::WrongState),
        }
    }

    /// Receives a Present.
    fn receive_present(&mut self, request: &PresentRequest) -> Result<(), TargetError>
        ensures { TargetReceiveStep self.old (apdus.PresentRequest request.now) result self.new }
    {
        match self.phase {
            AssociationPhase::Open(terms) => Ok(self.present(terms, request)?),
            AssociationPhase::Fresh | AssociationPhase::Ended => Err(TargetError::WrongState),
        }
    }

    /// Receives an Init.
    fn receive_init(&mut self, request: &InitRequest) -> Result<(), TargetError>
        ensures { TargetReceiveStep self.old (apdus.InitRequest request.now) result self.new }
    {
        match self.phase {
            AssociationPhase::Fresh => Ok(self.begin(request)?),
            AssociationPhase::Open(_) | AssociationPhase::Ended => Err(TargetError::WrongState),
        }
    }

    /// Receives a Close.
    fn receive_close(&mut self, close: &Close) -> Result<(), TargetError>
        ensures { TargetReceiveStep self.old (apdus.Close close.now) result self.new }
    {
        match self.phase {
            AssociationPhase::Fresh | AssociationPhase::Open(_) => Ok(self.close(close)?),
            AssociationPhase::Ended => Err(TargetError::WrongState),
        }
    }

    /// Receives an APDU, and appends the reply that is owed to it to the pending replies.
    fn take_in(&mut self, apdu: &Apdu) -> Result<(), TargetError>
        ensures { TargetReceiveStep self.old apdu.now result self.new }
    {
        match apdu {
            Apdu::InitRequest(request) => self.receive_init(request),
            Apdu::SearchRequest(request) => self.receive_search(request),
            Apdu::PresentRequest(request) => self.receive_present(request),
            Apdu::Close(close) => self.receive_close(close),
            Apdu::InitResponse(_) | Apdu::SearchResponse(_) | Apdu::PresentResponse(_) => {
                Err(TargetError::NotRequest)
            }
        }
    }

    /// Does nothing: it shows that each pending reply has an element.
    fn show_elements(&self)
        ensures { All HasElement self.now.pending }
    {
        let _ = &self.pending;
    }

    /// Receives an APDU (Z39.50-2003, 3.2), and appends the reply that is owed to it to the pending replies.
    ///
    /// Each reply has its request's reference id. docs/FORMATS.md, "What the target answers", has all of them:
    /// - To Init: whether the target accepts the association, and what is in force (3.2.1.1).
    /// - To a search: how many entries match. The first records follow if the search's bounds ask for them and the size
    ///   in force has room. The target keeps the result set under its name. A search that fails gets one diagnostic,
    ///   and leaves the older sets (3.2.2.1).
    /// - To a Present: the records at its positions that have room, from the first on, or one diagnostic (3.2.3.1).
    ///   Diagnostic 238 replaces a record if another syntax is asked for, and 17 if it is longer than the size.
    /// - To a Close: a Close (3.2.11.1).
    ///
    /// So a request that fails with a diagnostic is taken, not refused. Each pending reply has an element, with at most
    /// 64 constructed elements within one another. Only its length, or that no memory is found, can prevent its
    /// encoding.
    ///
    /// Refusals, each of which leaves the target unchanged:
    /// - `NotRequest`: the APDU is a response.
    /// - `WrongState`: before Init, anything but Init and Close; a second Init; anything after a Close or after an Init
    ///   that was refused.
    /// - `Memory`.
    #[tactic(auto, using(crate::proofs::Histories::answers_of))]
    pub fn receive(&mut self, apdu: &Apdu) -> Result<(), TargetError>
        ensures receives { TargetReceiveStep self.old apdu.now result self.new }
        ensures replies { (databases : List Database) (settings : TargetSettings) (received released : List Apdu)
            → After databases settings received released self.old
            → AfterReceive databases settings received released apdu.now result self.old self.new }
        ensures elements { All HasElement self.new.pending }
    {
        let received = self.take_in(apdu);
        self.show_elements();
        received
    }

    /// Returns the places of the entries that match the query (Z39.50-2003, 3.7). They count from 0 through the
    /// databases that are named, in the order of the names, and through their entries. A repeated name counts once.
    ///
    /// It supports these attributes of bib-1 (Z39.50-2003, ATR). The last Use and the last Truncation of a term count.
    /// - Use (type 1): 4, 7, 12, 21, 31, 1003, and 1016. 1016 is any field; it holds if none is given.
    /// - Relation (2): 3. Position (3): 3. Structure (4): 1 and 2. Completeness (6): 1.
    /// - Truncation (5): 1, the last word on its right; and 100, none.
    ///
    /// Refusals: `Memory`; and `Code`, with the condition of a bib-1 diagnostic (Z39.50-2003, ERR) and what it names,
    /// for the first fault in this order:
    /// - no database is named, or one that the target does not have (235);
    /// - the query's attribute set is not bib-1 (121);
    /// - a fault in the tree, from the left, operators before their operands: proximity (110), a result set (18), or a
    ///   fault of a term. A term's attributes come first: a set other than bib-1 (121), a complex value or a type other
    ///   than 1 to 6 (113), a value that is not supported (114, 117, 119, 118, 120, 122 for types 1 to 6). Then comes a
    ///   term of a type that is not supported (100).
    pub fn matches(&self, names: &[Bytes], query: &Query) -> Result<Vec<u32>, MatchError>
        ensures lawful { OnOk result (match_fault self.now.databases names.now query.now ≡ None) }
        ensures places { IfOk result (λ places. places.items
            ≡ found_places self.now.databases names.now query.now.root) }
        ensures refused { IfErr result (λ e. IsRefusal (match_fault self.now.databases names.now query.now) e) }
    {
        matching_places(self.alloc, &self.databases, names, query)
    }

    /// Returns the number of pending replies: those that are owed and not yet handed out. Each has an element of at
    /// most 64 levels. It takes no memory.
    pub fn pending(&self) -> usize
        ensures count { result ≡ length self.now.pending }
        ensures elements { All HasElement self.now.pending }
    {
        self.pending.len()
    }

    /// Takes pending reply `k` out, if it may be released.
    fn take(&mut self, k: usize) -> Option<Apdu>
        ensures releases { TargetReleaseStep self.old k result self.new }
        ensures element { IfSome result HasElement }
    {
        take_out(&mut self.pending, k)
    }

    /// Hands out pending reply `k`, counted from 0; the others stay in order. Returns `None` if there is no such reply,
    /// or if it is a Close and others are pending (Z39.50-2003, 3.2.11.1). It takes no memory. The reply has an element
    /// of at most 64 levels, as each pending reply has.
    #[tactic(auto, using(crate::proofs::Histories::release_of))]
    pub fn release(&mut self, k: usize) -> Option<Apdu>
        ensures releases { TargetReleaseStep self.old k result self.new }
        ensures after { (databases : List Database) (settings : TargetSettings) (received released : List Apdu)
            → After databases settings received released self.old
            → After databases settings received (with_released released result) self.new }
        ensures element { IfSome result HasElement }
    {
        self.take(k)
    }
}
