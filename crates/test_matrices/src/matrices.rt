//! Matrices that were worked out by hand: one after another, with an empty line between two.
//!
//! | Line | What it lists |
//! |---|---|
//! | `sizes`, `places` | the numbers of rows and columns, and the entries, each a row and a column |
//! | `rank` | the size of a maximum matching |
//! | `horizontal`, `square`, `vertical` | the rows and then the columns of a coarse part |
//! | `blocks` | the rows and columns of each fine block, in the order of blocks |
//! | `start` | what the repeated choice of Karp and Sipser takes |
//! | `sure` | the pairs that every maximum matching has |
//! | `from` | a matching, and pairs that every maximum matching has in which its rows and columns are matched |
//! | `components` | the numbers of the columns' strong components, counted from 1, and 0 for a column that is not square, where there is one way to number them so that no entry leads to a greater number |
//! | `one path` | a matching that a depth-first phase from the columns makes larger by one |
//!
//! Rows and columns count from 1. A column leads to another where it has an entry in the row of the
//! other's mate.

pub(crate) const MATRICES: &str = "\
name: one entry
sizes: 1 1
places: 1 1
rank: 1
horizontal: |
square: 1 | 1
vertical: |
blocks: 1 | 1
start: 1 1
sure: 1 1

name: no rows and no columns
sizes: 0 0
places:
rank: 0
horizontal: |
square: |
vertical: |
blocks:
start:
sure:

name: no rows
sizes: 0 2
places:
rank: 0
horizontal: | 1 2
square: |
vertical: |
blocks:
start:
sure:

name: no columns
sizes: 3 0
places:
rank: 0
horizontal: |
square: |
vertical: 1 2 3 |
blocks:
start:
sure:

name: no entries
sizes: 3 2
places:
rank: 0
horizontal: | 1 2
square: |
vertical: 1 2 3 |
blocks:
start:
sure:

name: no entries in one row
sizes: 1 2
places:
rank: 0
horizontal: | 1 2
square: |
vertical: 1 |
blocks:
start:
sure:
components: 0 0

name: one row of two entries
sizes: 1 2
places: 1 1, 1 2
rank: 1
horizontal: 1 | 1 2
square: |
vertical: |
blocks:
start: 1 1
sure:
from: 1 1 | 1 1
from: 1 2 | 1 2

name: one row of three entries
sizes: 1 3
places: 1 1, 1 2, 1 3
rank: 1
horizontal: 1 | 1 2 3
square: |
vertical: |
blocks:
start: 1 1
sure:

name: one column of two entries
sizes: 2 1
places: 1 1, 2 1
rank: 1
horizontal: |
square: |
vertical: 1 2 | 1
blocks:
start: 1 1
sure:
from: 2 1 | 2 1

name: one column of three entries
sizes: 3 1
places: 1 1, 2 1, 3 1
rank: 1
horizontal: |
square: |
vertical: 1 2 3 | 1
blocks:
start: 1 1
sure:

name: one row of two entries over an empty row
sizes: 2 2
places: 1 1, 1 2
rank: 1
horizontal: 1 | 1 2
square: |
vertical: 2 |
blocks:
start: 1 1
sure:

name: one column of two entries before an empty column
sizes: 2 2
places: 1 1, 2 1
rank: 1
horizontal: | 2
square: |
vertical: 1 2 | 1
blocks:
start: 1 1
sure:

name: an empty column before one entry
sizes: 1 2
places: 1 2
rank: 1
horizontal: | 1
square: 1 | 2
vertical: |
blocks: 1 | 2
start: 1 2
sure: 1 2

# Both pairs lie off the diagonal, and neither column leads to the other.
name: two entries off the diagonal
sizes: 2 2
places: 2 1, 1 2
rank: 2
horizontal: |
square: 1 2 | 1 2
vertical: |
blocks: 2 | 1, 1 | 2
start: 2 1, 1 2
sure: 2 1, 1 2

# The same pairs, and column 1 leads to column 2.
name: three entries, two off the diagonal
sizes: 2 2
places: 1 1, 2 1, 1 2
rank: 2
horizontal: |
square: 1 2 | 1 2
vertical: |
blocks: 1 | 2, 2 | 1
start: 2 1, 1 2
sure: 2 1, 1 2
from: 1 1 | 2 1, 1 2

name: the identity
sizes: 3 3
places: 1 1, 2 2, 3 3
rank: 3
horizontal: |
square: 1 2 3 | 1 2 3
vertical: |
blocks: 1 | 1, 2 | 2, 3 | 3
start: 1 1, 2 2, 3 3
sure: 1 1, 2 2, 3 3

# Each column leads to all later ones.
name: a lower triangle
sizes: 3 3
places: 1 1, 2 1, 3 1, 2 2, 3 2, 3 3
rank: 3
horizontal: |
square: 1 2 3 | 1 2 3
vertical: |
blocks: 3 | 3, 2 | 2, 1 | 1
start: 1 1, 2 2, 3 3
sure: 1 1, 2 2, 3 3
from: 2 1, 3 2 | 1 1, 2 2, 3 3
components: 3 2 1

# Column 1 leads to column 3. A search from column 1 finishes columns 3, 1, 2, one from the last
# column 3, 2, 1. Of the two that lead nowhere column 2 is the least.
name: a diagonal and one entry more
sizes: 3 3
places: 1 1, 3 1, 2 2, 3 3
rank: 3
horizontal: |
square: 1 2 3 | 1 2 3
vertical: |
blocks: 2 | 2, 3 | 3, 1 | 1
start: 1 1, 2 2, 3 3
sure: 1 1, 2 2, 3 3

# No row and no column has one entry, so the start takes row 1 for column 1, which leaves row 3 to
# column 3.
name: a cycle
sizes: 3 3
places: 1 2, 2 3, 3 1, 1 1, 2 2, 3 3
rank: 3
horizontal: |
square: 1 2 3 | 1 2 3
vertical: |
blocks: 1 2 3 | 1 2 3
start: 1 1, 2 2, 3 3
sure:
from: 3 1, 1 2 |

name: the cycle the other way round
sizes: 3 3
places: 1 1, 2 1, 2 2, 3 2, 3 3, 1 3
rank: 3
horizontal: |
square: 1 2 3 | 1 2 3
vertical: |
blocks: 1 2 3 | 1 2 3
start: 1 1, 2 2, 3 3
sure:
components: 1 1 1

# Column 1 takes row 1 from column 3, which has row 2 left to it.
name: a path beside a single entry
sizes: 3 3
places: 1 1, 1 2, 3 2, 1 3, 2 3
rank: 3
horizontal: |
square: 1 2 3 | 1 2 3
vertical: |
blocks: 1 | 1, 3 | 2, 2 | 3
start: 1 1, 3 2, 2 3
sure: 1 1, 3 2, 2 3
from: 1 3 | 1 1, 3 2, 2 3

# Row 3 has one entry, so the start takes it for column 2. Then column 1 takes row 1.
name: a row of one entry
sizes: 3 3
places: 1 1, 2 1, 1 2, 2 2, 3 2, 1 3, 2 3
rank: 3
horizontal: |
square: 1 2 3 | 1 2 3
vertical: |
blocks: 1 2 | 1 3, 3 | 2
start: 1 1, 3 2, 2 3
sure: 3 2
from: 1 2, 2 1 | 3 2

# Column 1 or 2 has row 1, column 3 has row 2, and column 4 has row 3 or 4. The start takes column
# 1, then column 3, and then row 3, which is less than row 4.
name: all three parts
sizes: 4 4
places: 1 1, 1 2, 1 3, 2 3, 2 4, 3 4, 4 4
rank: 3
horizontal: 1 | 1 2
square: 2 | 3
vertical: 3 4 | 4
blocks: 2 | 3
start: 1 1, 2 3, 3 4
sure: 2 3
from: 1 2 | 1 2, 2 3

# Column 3 leads to column 4. Its entry in the horizontal row and the entry of row 2 in the
# vertical column count for nothing.
name: two blocks between the other parts
sizes: 5 5
places: 1 1, 1 2, 1 3, 2 3, 3 3, 3 4, 2 5, 4 5, 5 5
rank: 4
horizontal: 1 | 1 2
square: 2 3 | 3 4
vertical: 4 5 | 5
blocks: 3 | 4, 2 | 3
start: 1 1, 2 3, 3 4, 4 5
sure: 2 3, 3 4
from: 3 3, 2 5 | 2 3, 3 4

# The same, with an entry of row 3 in the vertical column.
name: two blocks between the other parts, the later row in all
sizes: 5 5
places: 1 1, 1 2, 1 3, 2 3, 3 3, 3 4, 3 5, 4 5, 5 5
rank: 4
horizontal: 1 | 1 2
square: 2 3 | 3 4
vertical: 4 5 | 5
blocks: 3 | 4, 2 | 3
start: 1 1, 2 3, 3 4, 4 5
sure: 2 3, 3 4
components: 0 0 2 1 0

# Columns 2, 3 and 4 have rows 3 and 4 for the three of them, and row 2 is empty.
name: a single entry beside three columns of two rows
sizes: 4 4
places: 1 1, 3 2, 3 3, 4 3, 4 4
rank: 3
horizontal: 3 4 | 2 3 4
square: 1 | 1
vertical: 2 |
blocks: 1 | 1
start: 1 1, 3 2, 4 3
sure: 1 1
from: 3 3, 4 4 | 1 1, 3 3, 4 4

name: a chain of four
sizes: 4 4
places: 1 1, 2 1, 2 2, 3 2, 3 3, 4 3, 4 4
rank: 4
horizontal: |
square: 1 2 3 4 | 1 2 3 4
vertical: |
blocks: 4 | 4, 3 | 3, 2 | 2, 1 | 1
start: 1 1, 2 2, 3 3, 4 4
sure: 1 1, 2 2, 3 3, 4 4
components: 4 3 2 1

# Column j has rows j and j + 1, the last one row 6 alone. From the second matching all six pairs
# must change places.
name: a chain of six
sizes: 6 6
places: 1 1, 2 1, 2 2, 3 2, 3 3, 4 3, 4 4, 5 4, 5 5, 6 5, 6 6
rank: 6
horizontal: |
square: 1 2 3 4 5 6 | 1 2 3 4 5 6
vertical: |
blocks: 6 | 6, 5 | 5, 4 | 4, 3 | 3, 2 | 2, 1 | 1
start: 1 1, 2 2, 3 3, 4 4, 5 5, 6 6
sure: 1 1, 2 2, 3 3, 4 4, 5 5, 6 6
from: 1 1, 2 2, 3 3, 4 4, 5 5, 6 6 |
from: 2 1, 3 2, 4 3, 5 4, 6 5 |
one path: 2 1, 3 2, 4 3, 5 4, 6 5

# Columns 1 and 2 lead to each other, so do columns 3 and 4, and column 1 leads to column 3.
name: two cycles joined one way
sizes: 4 4
places: 1 1, 2 1, 3 1, 1 2, 2 2, 3 3, 4 3, 3 4, 4 4
rank: 4
horizontal: |
square: 1 2 3 4 | 1 2 3 4
vertical: |
blocks: 3 4 | 3 4, 1 2 | 1 2
start: 1 1, 2 2, 3 3, 4 4
sure:
from: 3 1, 4 3 |
components: 2 2 1 1

# Columns 1, 2 and 3 lead round a cycle, and two of them to column 4, which is finished before they
# are.
name: a cycle round a finished column
sizes: 4 4
places: 1 1, 2 1, 2 2, 3 2, 4 2, 1 3, 3 3, 4 3, 4 4
rank: 4
horizontal: |
square: 1 2 3 4 | 1 2 3 4
vertical: |
blocks: 4 | 4, 1 2 3 | 1 2 3
start: 1 1, 2 2, 3 3, 4 4
sure: 4 4
from: 2 1, 4 2, 1 3 | 4 4
components: 2 2 2 1

# The start takes row 1 for column 1, which leaves row 2 alone to columns 3 and 4. A maximum
# matching has rows 3 and 4 for columns 1 and 2, and rows 1 and 2 for columns 3 and 4.
name: a start that is not maximum
sizes: 4 4
places: 1 1, 3 1, 4 1, 3 2, 4 2, 1 3, 2 3, 1 4, 2 4
rank: 4
horizontal: |
square: 1 2 3 4 | 1 2 3 4
vertical: |
blocks: 1 2 | 3 4, 3 4 | 1 2
start: 1 1, 3 2, 2 3
sure:

# The mates of columns 1 to 5 are for instance rows 5, 3, 1, 2, 4. Columns 1 and 4 lead to each
# other, and so do 3 and 5. The first two lead to column 2 by two entries and to column 5 by one,
# and column 2 leads to column 3. The start takes row 2 for column 1, row 5 and row 3, which have
# one column left, and row 1 for column 3.
name: blocks of several columns
sizes: 5 5
places: 5 1, 2 1, 3 1, 4 1, 3 2, 1 2, 1 3, 4 3, 2 4, 5 4, 3 4, 4 5, 1 5
rank: 5
horizontal: |
square: 1 2 3 4 5 | 1 2 3 4 5
vertical: |
blocks: 1 4 | 3 5, 3 | 2, 2 5 | 1 4
start: 2 1, 3 2, 1 3, 5 4, 4 5
sure: 3 2
from: 3 1, 1 2, 4 5 | 3 2

# Row 3 has column 2 alone, so row 1 must leave it for column 1. Of the unmatched rows one has
# entries, of the unmatched columns four.
name: a row of four columns that have no other
sizes: 3 6
places: 1 1, 1 2, 2 2, 2 3, 2 4, 2 5, 2 6, 3 2
rank: 3
horizontal: 2 | 3 4 5 6
square: 1 3 | 1 2
vertical: |
blocks: 1 | 1, 3 | 2
start: 1 1, 3 2, 2 3
sure: 1 1, 3 2
from: 1 2, 2 3 | 1 1, 2 3, 3 2

# Columns 1 to 3 have row 1 alone, and rows 2 and 6 column 4 alone, which row 3 has to leave for
# column 5. Rows 4, 5 and 7 and column 6 are empty. So five rows and four columns are unmatched,
# but two of the rows and three of the columns have entries.
name: rows and columns without entries
sizes: 7 6
places: 1 1, 1 2, 1 3, 2 4, 3 4, 3 5, 6 4
rank: 3
horizontal: 1 | 1 2 3 6
square: 3 | 5
vertical: 2 4 5 6 7 | 4
blocks: 3 | 5
start: 1 1, 2 4, 3 5
sure: 3 5
from: 1 1, 3 4 | 1 1, 3 5

# Columns 1 to 4 have two rows for the four of them, columns 5 and 6 the other two rows, one by way
# of row 3.
name: four columns of two rows
sizes: 4 6
places: 1 1, 2 1, 1 2, 2 2, 1 3, 2 3, 2 4, 3 5, 4 5, 2 6, 3 6
rank: 4
horizontal: 1 2 | 1 2 3 4
square: 3 4 | 5 6
vertical: |
blocks: 3 | 6, 4 | 5
start: 1 1, 2 4, 4 5, 3 6
sure: 4 5, 3 6
from: 3 5 | 4 5, 3 6

# The same and rows 5 to 8, which have column 7 alone: more rows than columns are unmatched.
name: four columns of two rows, and four rows of one column
sizes: 8 7
places: 1 1, 2 1, 1 2, 2 2, 1 3, 2 3, 2 4, 3 5, 4 5, 2 6, 3 6, 5 7, 6 7, 7 7, 8 7
rank: 5
horizontal: 1 2 | 1 2 3 4
square: 3 4 | 5 6
vertical: 5 6 7 8 | 7
blocks: 3 | 6, 4 | 5
start: 1 1, 2 4, 4 5, 3 6, 5 7
sure: 4 5, 3 6
from: 3 5, 5 7 | 4 5, 3 6, 5 7

# Columns 2 to 5 have row 2 alone, which column 1 passes on its way to row 4 by way of rows 1 and
# 3. Then one of them can still take row 2 from column 7, which takes row 1 from column 1, which
# takes row 5 from column 9. More rows than columns are unmatched, since rows 7 to 11 have column
# 10 alone.
name: four columns of one row behind two long paths
sizes: 11 10
places: 1 1, 5 1, 2 2, 2 3, 2 4, 2 5, 1 6, 2 6, 3 6, 1 7, 2 7, 3 8, 4 8, 5 9, 6 9, 7 10, 8 10, 9 10, 10 10, 11 10
rank: 7
horizontal: 2 | 2 3 4 5
square: 1 3 4 5 6 | 1 6 7 8 9
vertical: 7 8 9 10 11 | 10
blocks: 1 | 7, 5 | 1, 3 | 6, 4 | 8, 6 | 9
start: 5 1, 2 2, 3 6, 1 7, 4 8, 6 9, 7 10
sure: 5 1, 3 6, 1 7, 4 8, 6 9
from: 1 6, 2 7, 3 8, 5 9, 7 10 | 5 1, 3 6, 1 7, 4 8, 6 9, 7 10
one path: 1 6, 2 7, 3 8, 5 9, 7 10
";
