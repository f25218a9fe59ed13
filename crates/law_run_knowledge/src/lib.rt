//! What agents know of each suite in a run was its register's. There is no code but laws, of runs in which agents
//! keep to their side (`law_run_machine`).
//!
//! **Promises.** A cache may be old, but each hint was the suite's prefix at its version, and each content the
//! suite's at its version. So was every prefix from which a transaction began or that it was told, and every
//! content that it knows, also where it will be given up (`knowledge_was`, `known_was`).
//!
//! **Definitions** (`specs/`): `Knowledge`, `Laws`.
#![tactic(auto)]

ghost use Rattle.law_run_knowledge.specs.Laws.{KnowledgeWas, KnownWas};

/// A law: in every run in which agents keep to their side, every hint and content in a cache was the suite's, and so was
/// every prefix that a transaction started from or was told, and every content that it knows. It does nothing.
pub fn knowledge_was()
    ensures { KnowledgeWas }
{}

/// A law: so what a transaction knows of a suite that had a Current was the suite's. It does nothing.
pub fn known_was()
    ensures { KnownWas }
{}
