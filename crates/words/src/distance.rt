// A theorem on words: the law of their products.
ghost use Rattle.words.specs.FamilyCases.{DistanceLaw};

// Holds in its contract that words which differ in d letters have the product d times d, modulo 6, for every length and
// alphabet that a family of words can have.
pub fn distance_law()
    ensures { DistanceLaw }
{}
