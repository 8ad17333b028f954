//! What nets read: its inputs have numbers among those of the columns, and at the others a run may have any values. It has lemmas alone.
