//! The circuits that texts spell: what is said of the nets that texts load as is said of these. It has lemmas alone, which each job may use.
