//! A text has one certificate, and each value of a certificate that is accepted is a lower bound.
ghost use Rattle.std.specs.Prelude.{◌≡◌, ◌≢◌, ℕ, List as Bytes, Option as Maybe, Err, Result as Either};
ghost use Rattle.csv_rows.specs.Tables.{table_of, header};
ghost use Rattle.plan_model.specs.Network.{NetworkModel};
ghost use Rattle.plan_model.specs.NameLists.{NameLists};
ghost use Rattle.plan_model.specs.declared.model.Query.{Query as Asked};
ghost use Rattle.lower_proof.specs.declared.LowerBounds.{LowerBounds as Proof};
ghost use Rattle.lower_proof.specs.declared.reader.ProofFault.{ProofFault as Fault};
ghost use Rattle.lower_proof.specs.declared.reader.ProofFault.TheVariants.{NoMemory as NoMemoryFault};
ghost use Rattle.lower_proof.specs.Certificates.{IsAccepted};
ghost use Rattle.lower_proof.specs.Promises.{AreSoundValues};
ghost use Rattle.lower_proof.specs.Reading.{bounds_in, IsFaultAfter, IsProofRead};

/// A law, with no code: what is read of a text is one certificate or one fault, unless memory runs out.
pub fn one_text_is_one_certificate()
    ensures { (n : NetworkModel) (names : NameLists) (source target start : ℕ) (text : Bytes ℕ) (r s : Either (Asked × Proof) Fault)
        → IsProofRead n names source target start text r → IsProofRead n names source target start text s
        → r ≢ Err NoMemoryFault → s ≢ Err NoMemoryFault → r ≡ s }
{}

/// A law, with no code: the first fault of a text is not that memory ran out.
pub fn no_text_lacks_memory()
    ensures { (n : NetworkModel) (names : NameLists) (source target start : ℕ) (text : Bytes ℕ) (fault : Fault)
        → IsFaultAfter n names (table_of text) (bounds_in names source target start (header (table_of text))) fault
        → fault ≢ NoMemoryFault }
{}

/// A law, with no code: in a certificate that is accepted, the value of a connection is at most the expected arrival of each
/// traveller who boards it and then arrives by the deadline whatever the delays.
pub fn each_value_is_a_bound()
    ensures { (n : NetworkModel) (query : Asked) (values : Bytes (Maybe ℕ)) → IsAccepted n query values → AreSoundValues n query values }
{}
