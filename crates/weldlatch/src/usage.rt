// What the program can be asked.

pub const TEXT: &str = "usage: weldlatch COMMAND

  weldlatch card OUT all N                  writes the card of all of N keyholders
  weldlatch card OUT two N                  writes the card of any two of N keyholders
  weldlatch card OUT sets N SET..           writes the card of N keyholders and minimal sets
  weldlatch scheme CARD                     prints the scheme that a card names
  weldlatch scheme all N                    prints a scheme without a card; also
  weldlatch scheme two N                    two of N, and sets
  weldlatch scheme sets N SET..
  weldlatch levels CARD [SET]               prints light and dark of a set, or of each minimal set
  weldlatch make CARD PICTURE TAPE PREFIX   makes the films PREFIX1.pbm, PREFIX2.pbm ..
  weldlatch order M BYTE..                  prints the order of M columns that the bytes spell
  weldlatch show [--plain] PICTURE          draws a PBM picture, or prints its size and bits
  weldlatch help                            prints this

A set of keyholders is written as 1,3. A file - is standard input or output. card and make
overwrite a file only after --force, as in weldlatch make --force CARD ..
A refusal goes to standard error with its number, and the status is 1.";
