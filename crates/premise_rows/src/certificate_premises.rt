//! That the premises of what is promised of certificates are met, and that clauses and a refutation fit together. The functions do nothing.

ghost use Rattle.premise_rows.specs.certificate_premises.OneGraph.{AndsHaveOneGraph};
ghost use Rattle.premise_rows.specs.certificate_premises.OneTree.{HaveOneTree};
ghost use Rattle.premise_rows.specs.certificate_premises.Fitting.{CertificatesFit};
ghost use Rattle.premise_rows.specs.certificate_premises.Printed.{CertificatesOfAnds};

/// Two `and`s by other rows have trees, a graph of both, and clauses.
pub fn ands_have_one_graph()
    ensures { AndsHaveOneGraph }
{}

/// Two nets of one circuit, whose gates stand in another order and of whose inputs one is left out, have one tree of their output.
pub fn nets_have_one_tree()
    ensures { HaveOneTree }
{}

/// Of two calls with the same files and name, of which one prints the pair's clauses and the other a refutation, the second's text is
/// accepted over the first's.
pub fn certificates_fit()
    ensures { CertificatesFit }
{}

/// Two `and`s by other rows load, their output has clauses, and what one call prints of these is what another call's refutation is accepted
/// over.
pub fn certificates_of_ands()
    ensures { CertificatesOfAnds }
{}
