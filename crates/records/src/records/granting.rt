//! Chunks that are granted and returned, and pages that are given to classes.

ghost use Rattle.std.specs.Prelude.{◌≡◌, ℕ, ◌+◌, true, false, List, length, is_some, IfSome, if◌then◌else◌, vec_len, MatchOption, nat_lt};
ghost use Rattle.slabs.specs.Slabs.{Granted, layout};
ghost use Rattle.model.specs.Setup.{Setup, chunks};
ghost use Rattle.model.specs.Sound.{Numbered};
ghost use Rattle.model.specs.Store.{Class, class_at, with_page};
ghost use Rattle.records.specs.Kept.{GrantedTo, NoGrant, OnlyGrant, Kept};
ghost use Rattle.records.specs.Showing.{HasChunks, ShowsRecords};

use super::Records;
use slabs::Grant;

impl Records {
    /// Grants a free chunk of a class, if it has one.
    pub fn take(&mut self, class: usize) -> Option<Grant>
        ensures taken { MatchOption result (self.new ≡ self.old) (λ grant. (grant.class ≡ class) × Granted self.new.slab grant) }
        ensures layout { layout self.new.slab ≡ layout self.old.slab }
        ensures table { self.new.table ≡ self.old.table }
        ensures slots { vec_len self.new.heads ≡ vec_len self.old.heads }
        ensures only { NoGrant self.old.slab → IfSome result (λ grant. OnlyGrant self.new.slab grant) }
        ensures shown { (setup : Setup) (memory : List ℕ) (ks : List Class) → ShowsRecords setup self.old.slab memory ks → ShowsRecords setup self.new.slab memory ks }
        ensures room { (setup : Setup) (memory : List ℕ) (ks : List Class) → ShowsRecords setup self.old.slab memory ks → NoGrant self.old.slab → Numbered setup class → is_some result ≡ nat_lt (length (class_at class ks).records) (chunks setup class (class_at class ks).pages) }
    {
        self.slab.take(class)
    }

    /// Gives the next free page to a class; false, and nothing done, where there is none.
    pub fn give_page(&mut self, class: usize) -> bool
        ensures answer { (setup : Setup) (memory : List ℕ) (ks : List Class) → HasChunks setup → ShowsRecords setup self.old.slab memory ks → Numbered setup class → result ≡ nat_lt self.old.slab.given self.old.slab.pages }
        ensures pages { (self.new.slab.pages ≡ self.old.slab.pages) × (self.new.slab.given ≡ (if result then self.old.slab.given + 1 else self.old.slab.given)) }
        ensures same { result ≡ false → self.new ≡ self.old }
        ensures table { self.new.table ≡ self.old.table }
        ensures slots { vec_len self.new.heads ≡ vec_len self.old.heads }
        ensures granted { (i class : ℕ) → GrantedTo self.new.slab i class → GrantedTo self.old.slab i class }
        ensures shown { (setup : Setup) (memory : List ℕ) (ks : List Class) → ShowsRecords setup self.old.slab memory ks → Numbered setup class → result ≡ true → ShowsRecords setup self.new.slab memory (with_page class ks) }
    {
        self.slab.give_page(class)
    }

    /// Returns a grant: its chunk is free again.
    pub fn give_back(&mut self, grant: Grant)
        requires granted { Granted self.old.slab grant }
        ensures kept { Kept self.old self.new }
        ensures returned { (class : ℕ) → GrantedTo self.new.slab grant.row class → ⊥ }
        ensures shown { (setup : Setup) (memory : List ℕ) (ks : List Class) → ShowsRecords setup self.old.slab memory ks → ShowsRecords setup self.new.slab memory ks }
    {
        self.slab.give_back(grant);
    }
}
