//! What holds of module documents. Each law is the contract of a function that does nothing.

ghost use Rattle.std.specs.Prelude.{◌≡◌, ◌↔◌, Bool, List, IsTrue};
ghost use Rattle.std.specs.List.{Contains};
ghost use Rattle.ad_base.specs.declared.limits.Kind.{Kind};
ghost use Rattle.ad_tree.specs.declared.axioms.Noted.{Noted};
ghost use Rattle.ad_entity.specs.declared.entities.Entity.{Entity};
ghost use Rattle.ad_syntax_laws.specs.ModuleDocument.{IsModuleDocumentOf};
ghost use Rattle.ad_syntax_laws.specs.OntologyModule.{IsModuleOf, is_logical_axiom, logical};

/// An ontology has exactly one module document of each kind for a seed, whatever test the seed is.
pub fn document_once()
    ensures exists { (kind : Kind) (seed : Entity → Bool) (O : List Noted) → (D : List Noted) × IsModuleDocumentOf kind seed O D }
    ensures one { (kind : Kind) (seed : Entity → Bool) (O D E : List Noted) → IsModuleDocumentOf kind seed O D →
        IsModuleDocumentOf kind seed O E → D ≡ E }
{}

/// The logical axioms of a module document are the module.
pub fn document_module()
    ensures { (kind : Kind) (seed : Entity → Bool) (O D : List Noted) → IsModuleDocumentOf kind seed O D →
        IsModuleOf kind seed O (logical D) }
{}

/// Where no axiom of the ontology is carried, the module document is the module.
pub fn document_plain()
    ensures { (kind : Kind) (seed : Entity → Bool) (O D : List Noted) →
        ((a : Noted) → Contains O a → IsTrue (is_logical_axiom a)) →
        IsModuleDocumentOf kind seed O D ↔ IsModuleOf kind seed O D }
{}
