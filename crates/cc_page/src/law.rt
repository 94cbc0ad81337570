// Laws of pages, which the crates above cite: the contract of each function is the law, and it does nothing.
ghost use Rattle.cc_page.specs.Law.{AddressesSplit, BytesMakePages, NothingBeyond, PagesGrow, PagesHaveBytes};
ghost use Rattle.cc_page.specs.Law.{PagesShowBytes, PairsAreRead, PairsAreWritten, PairsByScores, PartsByScores};
ghost use Rattle.cc_page.specs.Law.{WordsAreRead, WordsAreSelected, WordsAreSet, WordsAreWritten, WordsStand};

/// Law: what the public layout shows of pages are their bytes, 65,536 for each; and pages of zeros behind them are bytes of
/// zeros behind these.
pub fn pages_have_bytes()
    ensures shown { PagesShowBytes }
    ensures many { PagesHaveBytes }
    ensures grown { PagesGrow }
{}

/// Law: bytes, as many as whole pages have, are those of the pages that they make, which are just so many.
pub fn bytes_make_pages()
    ensures { BytesMakePages }
{}

/// Law: up to four bytes at an address are a part of a word, or of two that follow one another, over the end of a page too;
/// there are none beyond the last page.
pub fn bytes_are_parts_of_words()
    ensures stand { WordsStand }
    ensures within { WordsAreRead }
    ensures across { PairsAreRead }
    ensures beyond { NothingBeyond }
{}

/// Law: up to four bytes are written at an address by writing one word, or the two over which they lie.
pub fn bytes_are_written_into_words()
    ensures within { WordsAreWritten }
    ensures across { PairsAreWritten }
{}

/// Law: in a storage a word is selected and set by its page and its place; where there is no such page, nothing is.
pub fn pages_stand_in_storages()
    ensures selected { WordsAreSelected }
    ensures set { WordsAreSet }
{}

/// Law: a part of a word, kept as a signed number, is what a quotient and a rest of scores give; and what lies over two
/// words is the sum of such a part and of a product that wraps. The page, the place and the byte of an address are quotients
/// and rests too.
pub fn scores_split_words()
    ensures parts { PartsByScores }
    ensures pairs { PairsByScores }
    ensures address { AddressesSplit }
{}
