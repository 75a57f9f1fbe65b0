//! What holds of the documents of modules that were found. The law is the contract of a function that does nothing.

ghost use Rattle.std.specs.Prelude.{Bool, List};
ghost use Rattle.ad_base.specs.declared.limits.Kind.{Kind};
ghost use Rattle.ad_entity.specs.declared.entities.Entity.{Entity};
ghost use Rattle.ad_syntax_laws.specs.ModuleDocument.{IsModuleDocumentOf};
ghost use Rattle.ad_syntax_laws.specs.OntologyLogic.{seed_test};
ghost use Rattle.ad_numbered.specs.Numbered.{InSlots, IsNumbered};
ghost use Rattle.ad_module_document.specs.Documents.{HoldModule, document_in};

/// A law: what the rows of a module that was found choose is the document of the ontology's module.
pub fn found_documents()
    ensures { (kind : Kind) (ontology : InSlots) (seed : List Entity) (members closure : List Bool) →
        IsNumbered ontology → HoldModule kind ontology seed members closure →
        IsModuleDocumentOf kind (seed_test seed) ontology.axioms (document_in ontology seed members closure) }
{}
