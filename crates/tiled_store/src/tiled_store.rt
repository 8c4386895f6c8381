ghost use Rattle.std.specs.Prelude.{◌≡◌, ◌-◌, ◌^◌, ◌<◌, ◌≤◌, ◌⊎◌, ◌∷◌, [], ℕ, List, IfSome, IsErrOf, IsOk, IfErr, IfOk, OnOk, IsTrue, Bool, true, false, Ok, None};
ghost use Rattle.map_store.specs.Asking.{loading, storing};
ghost use Rattle.map_store.specs.Files.{HasFailed};
ghost use Rattle.map_store.specs.Storing.{Loads, Stores};
ghost use Rattle.tiled_files.specs.declared.kind.Kind.TheVariants.{Json, Tmx};
ghost use Rattle.tiled_maps.specs.Texts.{text_or};
ghost use Rattle.tiled_store.specs.Stored.{AsksForSource, AtMostOnce, Gives, GivesFor, IsNotPut, IsNotPutAs, IsNotPutJson, IsRefused, IsSourceBy, IsSourceOf, LoadsFrom, PutsAs, PutsBy, PutsFor, PutsLike, PutsPlain, StoresTo};

use crate::fault_report::FaultReport;
use map_store::{MapStore, StoreCall, StoreFault, StoreLog};
use std::alloc::Global;
use tiled_files::{FileFault, Kind, LONGEST, is_xml, kind_of, opened, saved};
use tiled_maps::{Fault, needs_nothing, put_back};

// Whether a text surely is loaded as it is: by one look at its bytes, and without its tree.
fn stays(bytes: &[u8]) -> bool
    ensures { result ≡ true → GivesFor bytes.now bytes.now }
{
    if is_xml(bytes) {
        return false;
    }
    needs_nothing(bytes)
}

/// The files of another store. A load sets the fractions of a map aside and makes an infinite map finite; one in XML becomes JSON. A
/// store puts back what was set aside, and lays the text out as its source is: the file that stands under its name. If that is XML, so
/// is the text; and if there is none, and the name ends in `.tmx`. Or both leave a text as it is, if the store was made so.
///
/// A file is loaded as it is if it is neither JSON nor XML, so that its reader refuses it. For another fault of `opened`, or if its text
/// is longer than `LONGEST`, the load is refused as `Device`, and the report is told why; so is a store for `put_back` or `saved`, and
/// then no file changes.
///
/// The source is read by a store of its own, which is to have the same files and to tell nothing: where it refuses, as for a new name,
/// there is none, and the text gets Tiled's layout; of a name in `.tmx` want of memory is handed on. Nothing is claimed of the files.
#[derive(Drop)]
pub struct TiledStore<S, Q, T> {
    /// The other store.
    pub store: S,
    /// By what the source of a text is read.
    pub sources: Q,
    /// Whether maps are set aside and put back.
    pub sets_aside: bool,
    report: T,
    // How often this store has answered `Device`.
    failures: u64,
    // What this store was asked.
    log: StoreLog,
}

impl<S: MapStore, Q: MapStore, T: FaultReport> TiledStore<S, Q, T> {
    /// Over a store, by another that reads its sources, and with a report of what is refused. Maps are set aside, or texts are left
    /// as they are.
    pub fn new(store: S, sources: Q, report: T, sets_aside: bool) -> TiledStore<S, Q, T>
        ensures store { result.store ≡ store }
        ensures sources { result.sources ≡ sources }
        ensures sets { result.sets_aside ≡ sets_aside }
        ensures asked { result.log.asked ≡ [] }
    {
        TiledStore {
            store,
            sources,
            sets_aside,
            report,
            failures: 0,
            log: StoreLog::new(),
        }
    }

    // Tells the report of a file with these bytes that is refused, or of a text with these that is not stored, and gives the answer.
    fn refused(&self, name: &str, bytes: &[u8], fault: FileFault) -> StoreFault
        ensures { result ≡ StoreFault.Device }
    {
        self.report.refused(name, bytes, fault);
        StoreFault::Device
    }

    // Tells the report of a text that is too long, and gives the answer.
    fn too_long(&self, name: &str) -> StoreFault
        ensures { result ≡ StoreFault.Device }
    {
        self.report.too_long(name);
        StoreFault::Device
    }

    // Counts a fault of the device.
    fn counted(&mut self, fault: StoreFault) -> StoreFault
        ensures value { result ≡ fault }
        ensures raised { result ≡ StoreFault.Device → (self.old.failures < self.new.failures) ⊎ (self.old.failures ≡ 2 ^ 64 - 1) }
        ensures count { self.old.failures ≤ self.new.failures }
        ensures store { self.new.store ≡ self.old.store }
        ensures sources { self.new.sources ≡ self.old.sources }
        ensures sets { self.new.sets_aside ≡ self.old.sets_aside }
        ensures asked { self.new.log ≡ self.old.log }
    {
        if fault == StoreFault::Device {
            self.failures = self.failures.saturating_add(1);
        }
        fault
    }

    // What is set aside of a file, if that is a text of its own.
    fn set_aside_of(
        &self,
        alloc: Global,
        name: &str,
        bytes: &[u8],
    ) -> Result<Option<Vec<u8>>, StoreFault>
        ensures plain { self.now.sets_aside ≡ false → result ≡ Ok None }
        ensures gives { IsTrue self.now.sets_aside → IfOk result (Gives bytes.now) }
        ensures refused { IsErrOf result StoreFault.Device → IsRefused bytes.now }
        ensures found { IsErrOf result StoreFault.Missing → ⊥ }
    {
        if !self.sets_aside || stays(bytes) {
            return Ok(None);
        }
        match opened(alloc, bytes) {
            Ok(Some(text)) if text.len() > LONGEST => Err(self.too_long(name)),
            Ok(own) => Ok(own),
            Err(FileFault::Aside(Fault::NotJson)) => Ok(None),
            Err(fault) if fault.is_memory() => Err(StoreFault::Memory),
            Err(fault) => Err(self.refused(name, bytes, fault)),
        }
    }

    // Loads a file, and sets aside what is to be. A fault is not counted yet.
    fn loaded(&mut self, alloc: Global, name: &str) -> Result<Vec<u8>, StoreFault>
        ensures loads { IsTrue (S.stored self.old.store).honest → IsTrue self.old.sets_aside
            → LoadsFrom name.now (S.stored self.old.store) result (S.stored self.new.store) }
        ensures plain { IsTrue (S.stored self.old.store).honest → self.old.sets_aside ≡ false
            → Loads name.now (S.stored self.old.store).files result (S.stored self.new.store).files }
        ensures sets { self.new.sets_aside ≡ self.old.sets_aside }
        ensures failures { self.new.failures ≡ self.old.failures }
        ensures asked { self.new.log ≡ self.old.log }
        ensures below { S.asked self.new.store ≡ loading name.now ∷ S.asked self.old.store }
        ensures sources { self.new.sources ≡ self.old.sources }
        ensures calls { S.calls self.new.store ≡ S.calls self.old.store }
    {
        let bytes = self.store.load(alloc, name)?;
        match self.set_aside_of(alloc, name, bytes.as_slice())? {
            Some(text) => Ok(text),
            None => Ok(bytes),
        }
    }

    // Tells the report where a text could not be laid out as its source is.
    fn tell_layout(&self, name: &str, fell_back: bool) {
        if fell_back {
            self.report.not_laid_out(name);
        }
    }

    // The text in JSON in which what was set aside is put back, laid out as a source is, if there is memory for it and it is not too
    // long.
    fn put_like(&self, alloc: Global, name: &str, bytes: &[u8], source: &[u8]) -> Option<Vec<u8>>
        ensures { IfSome result (λ text. PutsLike Json source.now bytes.now text.items) }
    {
        match saved(alloc, bytes, source, Kind::Json) {
            Ok(laid) if laid.text.len() <= LONGEST => {
                self.tell_layout(name, laid.fell_back);
                Some(laid.text)
            }
            _ => None,
        }
    }

    // That text as it is printed, if it is one of its own.
    fn put_plain(
        &self,
        alloc: Global,
        name: &str,
        bytes: &[u8],
    ) -> Result<Option<Vec<u8>>, StoreFault>
        ensures puts { IfOk result (λ own. PutsPlain bytes.now (text_or bytes.now own)) }
        ensures refused { IsErrOf result StoreFault.Device → IsNotPutJson bytes.now }
        ensures found { IsErrOf result StoreFault.Missing → ⊥ }
    {
        match put_back(alloc, bytes) {
            Ok(Some(text)) if text.len() > LONGEST => Err(self.too_long(name)),
            Ok(own) => Ok(own),
            Err(Fault::NotJson) => Ok(None),
            Err(Fault::Memory) => Err(StoreFault::Memory),
            Err(fault) => Err(self.refused(name, bytes, FileFault::Aside(fault))),
        }
    }

    // The text in JSON that is put for another, if it is one of its own: as its source is laid out, or else in Tiled's layout, or else as
    // it is printed.
    fn put_json(
        &self,
        alloc: Global,
        name: &str,
        bytes: &[u8],
        source: &[u8],
    ) -> Result<Option<Vec<u8>>, StoreFault>
        ensures puts { IfOk result (λ own. PutsAs Json source.now bytes.now (text_or bytes.now own)) }
        ensures refused { IsErrOf result StoreFault.Device → IsNotPutJson bytes.now }
        ensures found { IsErrOf result StoreFault.Missing → ⊥ }
    {
        if let Some(text) = self.put_like(alloc, name, bytes, source) {
            return Ok(Some(text));
        }
        if let Some(text) = self.put_like(alloc, name, bytes, b"") {
            return Ok(Some(text));
        }
        self.put_plain(alloc, name, bytes)
    }

    // The text in XML that is put for another.
    fn put_tmx(
        &self,
        alloc: Global,
        name: &str,
        bytes: &[u8],
        source: &[u8],
    ) -> Result<Option<Vec<u8>>, StoreFault>
        ensures puts { IfOk result (λ own. PutsAs Tmx source.now bytes.now (text_or bytes.now own)) }
        ensures refused { IsErrOf result StoreFault.Device → IsNotPutAs Tmx source.now bytes.now }
        ensures found { IsErrOf result StoreFault.Missing → ⊥ }
    {
        match saved(alloc, bytes, source, Kind::Tmx) {
            Ok(laid) if laid.text.len() > LONGEST => Err(self.too_long(name)),
            Ok(laid) => Ok(Some(laid.text)),
            Err(fault) if fault.is_memory() => Err(StoreFault::Memory),
            Err(fault) => Err(self.refused(name, bytes, fault)),
        }
    }

    // The text that is put for another under a name, if it is one of its own.
    fn put_back_of(
        &self,
        alloc: Global,
        name: &str,
        bytes: &[u8],
        source: &[u8],
    ) -> Result<Option<Vec<u8>>, StoreFault>
        ensures puts { IfOk result (λ own. PutsFor name.now source.now bytes.now (text_or bytes.now own)) }
        ensures refused { IsErrOf result StoreFault.Device → IsNotPut name.now source.now bytes.now }
        ensures found { IsErrOf result StoreFault.Missing → ⊥ }
    {
        match kind_of(name, source) {
            Kind::Json => self.put_json(alloc, name, bytes, source),
            Kind::Tmx => self.put_tmx(alloc, name, bytes, source),
        }
    }

    // The file under a name, as the source of what is put there. There is none if it is not read. For want of memory that is refused where
    // the name is one of XML: all that the file has besides the map would be lost.
    fn source_of(&mut self, alloc: Global, name: &str) -> Result<Vec<u8>, StoreFault>
        ensures source { IfOk result (λ source. IsSourceOf name.now (Q.stored self.old.sources) source.items) }
        ensures fault { IfErr result (λ fault. fault ≡ StoreFault.Memory) }
        ensures asked { Q.asked self.new.sources ≡ loading name.now ∷ Q.asked self.old.sources }
        ensures calls { Q.calls self.new.sources ≡ Q.calls self.old.sources }
        ensures store { self.new.store ≡ self.old.store }
        ensures sets { self.new.sets_aside ≡ self.old.sets_aside }
        ensures failures { self.new.failures ≡ self.old.failures }
        ensures log { self.new.log ≡ self.old.log }
    {
        match self.sources.load(alloc, name) {
            Ok(file) => Ok(file),
            Err(StoreFault::Memory) if kind_of(name, b"") == Kind::Tmx => Err(StoreFault::Memory),
            Err(_) => Ok(Vec::new(alloc)),
        }
    }

    // Puts back what is set aside in a text, and stores it. A fault is not counted yet.
    fn put(&mut self, alloc: Global, name: &str, bytes: &[u8]) -> Result<(), StoreFault>
        ensures stores { IsTrue (S.stored self.old.store).honest → IsTrue self.old.sets_aside
            → StoresTo (Q.stored self.old.sources) name.now bytes.now (S.stored self.old.store) result (S.stored self.new.store) }
        ensures plain { IsTrue (S.stored self.old.store).honest → self.old.sets_aside ≡ false
            → Stores name.now bytes.now (S.stored self.old.store).files result (S.stored self.new.store).files }
        ensures found { IsErrOf result StoreFault.Missing → ⊥ }
        ensures sets { self.new.sets_aside ≡ self.old.sets_aside }
        ensures failures { self.new.failures ≡ self.old.failures }
        ensures asked { self.new.log ≡ self.old.log }
        ensures below { AtMostOnce name.now (S.asked self.old.store) (S.asked self.new.store) }
        ensures sources { AsksForSource self.old.sets_aside name.now (Q.asked self.old.sources) (Q.asked self.new.sources) }
        ensures calls { Q.calls self.new.sources ≡ Q.calls self.old.sources }
        ensures stored { IsOk result → S.asked self.new.store ≡ storing name.now ∷ S.asked self.old.store }
        ensures kept { OnOk result ((source : List ℕ) × (file : List ℕ) × IsSourceBy self.old.sets_aside name.now (Q.stored self.old.sources) source
            × PutsBy self.old.sets_aside name.now source bytes.now file × S.keeps self.new.store name.now file) }
        ensures safe { (self.new.store ≡ self.old.store)
            ⊎ ((source : List ℕ) × (file : List ℕ) × IsSourceBy self.old.sets_aside name.now (Q.stored self.old.sources) source
            × PutsBy self.old.sets_aside name.now source bytes.now file × S.loses_nothing self.old.store self.new.store name.now file) }
    {
        if !self.sets_aside {
            return self.store.store(alloc, name, bytes);
        }
        let source = self.source_of(alloc, name)?;
        match self.put_back_of(alloc, name, bytes, source.as_slice())? {
            Some(text) => self.store.store(alloc, name, text.as_slice()),
            None => self.store.store(alloc, name, bytes),
        }
    }
}

impl<S: MapStore, Q: MapStore, T: FaultReport> MapStore for TiledStore<S, Q, T> {
    ghost use Rattle.std.specs.Prelude.{false};

    ghost stored = { λ s. record { files = (S.stored s.store).files; failures = s.failures; honest = false } };

    ghost asked = { λ s. s.log.asked };

    ghost calls = { λ s. S.calls s.store };

    ghost keeps = { λ s name bytes. (source : List ℕ) × (file : List ℕ) × PutsBy s.sets_aside name source bytes file × S.keeps s.store name file };

    ghost loses_nothing = { λ old new name bytes. (new.store ≡ old.store)
        ⊎ ((source : List ℕ) × (file : List ℕ) × PutsBy old.sets_aside name source bytes file × S.loses_nothing old.store new.store name file) };

    fn load(&mut self, alloc: Global, name: &str) -> Result<Vec<u8>, StoreFault>
        ensures loads_from { IsTrue (S.stored self.old.store).honest → IsTrue self.old.sets_aside
            → LoadsFrom name.now (S.stored self.old.store) result (S.stored self.new.store) }
        ensures plain { IsTrue (S.stored self.old.store).honest → self.old.sets_aside ≡ false
            → Loads name.now (S.stored self.old.store).files result (S.stored self.new.store).files }
        ensures sets { self.new.sets_aside ≡ self.old.sets_aside }
        ensures below { S.asked self.new.store ≡ loading name.now ∷ S.asked self.old.store }
        ensures sources { self.new.sources ≡ self.old.sources }

        // The clauses of the trait.
        ensures device { IsErrOf result StoreFault.Device
            → HasFailed (⟦<TiledStore<S, Q, T> as MapStore>⟧.stored self.old) (⟦<TiledStore<S, Q, T> as MapStore>⟧.stored self.new) }
        ensures count { (⟦<TiledStore<S, Q, T> as MapStore>⟧.stored self.old).failures ≤ (⟦<TiledStore<S, Q, T> as MapStore>⟧.stored self.new).failures }
        ensures asked { self.new.log.asked ≡ loading name.now ∷ self.old.log.asked }
        ensures calls { S.calls self.new.store ≡ S.calls self.old.store }
    {
        self.log.note(&StoreCall::Load(name));
        match self.loaded(alloc, name) {
            Ok(bytes) => Ok(bytes),
            Err(fault) => Err(self.counted(fault)),
        }
    }

    fn store(&mut self, alloc: Global, name: &str, bytes: &[u8]) -> Result<(), StoreFault>
        ensures stores_to { IsTrue (S.stored self.old.store).honest → IsTrue self.old.sets_aside
            → StoresTo (Q.stored self.old.sources) name.now bytes.now (S.stored self.old.store) result (S.stored self.new.store) }
        ensures plain { IsTrue (S.stored self.old.store).honest → self.old.sets_aside ≡ false
            → Stores name.now bytes.now (S.stored self.old.store).files result (S.stored self.new.store).files }
        ensures kept_like { OnOk result ((source : List ℕ) × (file : List ℕ) × IsSourceBy self.old.sets_aside name.now (Q.stored self.old.sources) source
            × PutsBy self.old.sets_aside name.now source bytes.now file × S.keeps self.new.store name.now file) }
        ensures sets { self.new.sets_aside ≡ self.old.sets_aside }
        ensures below { AtMostOnce name.now (S.asked self.old.store) (S.asked self.new.store) }
        ensures sources { AsksForSource self.old.sets_aside name.now (Q.asked self.old.sources) (Q.asked self.new.sources) }
        ensures source_calls { Q.calls self.new.sources ≡ Q.calls self.old.sources }
        ensures stored { IsOk result → S.asked self.new.store ≡ storing name.now ∷ S.asked self.old.store }

        // The clauses of the trait.
        ensures found { IsErrOf result StoreFault.Missing → ⊥ }
        ensures device { IsErrOf result StoreFault.Device
            → HasFailed (⟦<TiledStore<S, Q, T> as MapStore>⟧.stored self.old) (⟦<TiledStore<S, Q, T> as MapStore>⟧.stored self.new) }
        ensures count { (⟦<TiledStore<S, Q, T> as MapStore>⟧.stored self.old).failures ≤ (⟦<TiledStore<S, Q, T> as MapStore>⟧.stored self.new).failures }
        ensures asked { self.new.log.asked ≡ storing name.now ∷ self.old.log.asked }
        ensures kept { OnOk result (⟦<TiledStore<S, Q, T> as MapStore>⟧.keeps self.new name.now bytes.now) }
        ensures safe { ⟦<TiledStore<S, Q, T> as MapStore>⟧.loses_nothing self.old self.new name.now bytes.now }
    {
        self.log.note(&StoreCall::Store(name));
        match self.put(alloc, name, bytes) {
            Ok(()) => Ok(()),
            Err(fault) => Err(self.counted(fault)),
        }
    }
}
