//! Every talk of up to four acts that is possible, and of five where the collector is raised after it was
//! widened, with what comes next after it, as a program in another language found it
//! (`tests/collector-talks.py`), which shares nothing with this code.
//!
//! It begins with one vote each at servers 0 and 1, one to read and two to write. The acts: `h` held, at
//! versions 1; `n` held, at prefix version 2, which gives server 1 one vote and server 2 two, two to read
//! and two to write, and content version 3; `b` busy by transaction 5; `d` down; `^` raised; `w` widened,
//! once there is a quorum, to the votes of `n`.

pub const TALKS: &str = "\
h prefix 1 content 1 of [0] from Some(0)\n\
n Shared at 1\n\
b Shared at 1\n\
d Shared at 1\n\
^ Exclusive at 0\n\
h^ Upgrade { t: 7, suite: 9 } at 0\n\
hw Exclusive at 1\n\
nh Shared at 2\n\
nn Shared at 2\n\
nb Shared at 2\n\
nd Shared at 2\n\
n^ Exclusive at 1\n\
bh prefix 1 content 1 of [1] from Some(1)\n\
bn Shared at 2\n\
bb 0 of 1 busy Some((0, 5))\n\
bd 0 of 1 busy Some((0, 5))\n\
b^ Exclusive at 1\n\
dh prefix 1 content 1 of [1] from Some(1)\n\
dn Shared at 2\n\
db 0 of 1 busy Some((1, 5))\n\
dd 0 of 1 busy None\n\
d^ Exclusive at 1\n\
^h Exclusive at 1\n\
^n Exclusive at 1\n\
^b Exclusive at 1\n\
^d Exclusive at 1\n\
h^h Exclusive at 1\n\
h^n Exclusive at 1\n\
h^b Exclusive at 1\n\
hwh Exclusive at 2\n\
hwn Exclusive at 2\n\
hwb Exclusive at 2\n\
hwd Exclusive at 2\n\
hw^ Exclusive at 1\n\
nhh prefix 2 content 1 of [1, 2] from Some(1)\n\
nhn prefix 2 content 3 of [1, 2] from Some(2)\n\
nhb 1 of 2 busy Some((2, 5))\n\
nhd 1 of 2 busy None\n\
nh^ Upgrade { t: 7, suite: 9 } at 1\n\
nnh prefix 2 content 3 of [1, 2] from Some(1)\n\
nnn prefix 2 content 3 of [1, 2] from Some(1)\n\
nnb 1 of 2 busy Some((2, 5))\n\
nnd 1 of 2 busy None\n\
nn^ Upgrade { t: 7, suite: 9 } at 1\n\
nbh prefix 2 content 1 of [2] from Some(2)\n\
nbn prefix 2 content 3 of [2] from Some(2)\n\
nbb 0 of 2 busy Some((1, 5))\n\
nbd 0 of 2 busy Some((1, 5))\n\
nb^ Exclusive at 2\n\
ndh prefix 2 content 1 of [2] from Some(2)\n\
ndn prefix 2 content 3 of [2] from Some(2)\n\
ndb 0 of 2 busy Some((2, 5))\n\
ndd 0 of 2 busy None\n\
nd^ Exclusive at 2\n\
n^h Exclusive at 2\n\
n^n Exclusive at 2\n\
n^b Exclusive at 2\n\
n^d Exclusive at 2\n\
bh^ Upgrade { t: 7, suite: 9 } at 1\n\
bhw Upgrade { t: 7, suite: 9 } at 1\n\
bnh prefix 2 content 3 of [1, 2] from Some(1)\n\
bnn prefix 2 content 3 of [1, 2] from Some(1)\n\
bnb 1 of 2 busy Some((0, 5))\n\
bnd 1 of 2 busy Some((0, 5))\n\
bn^ Upgrade { t: 7, suite: 9 } at 1\n\
bb^ 0 of 2 busy Some((0, 5))\n\
bd^ 0 of 2 busy Some((0, 5))\n\
b^h 1 of 2 busy Some((0, 5))\n\
b^n Exclusive at 2\n\
b^b 0 of 2 busy Some((0, 5))\n\
b^d 0 of 2 busy Some((0, 5))\n\
dh^ Upgrade { t: 7, suite: 9 } at 1\n\
dhw Upgrade { t: 7, suite: 9 } at 1\n\
dnh prefix 2 content 3 of [1, 2] from Some(1)\n\
dnn prefix 2 content 3 of [1, 2] from Some(1)\n\
dnb 1 of 2 busy Some((2, 5))\n\
dnd 1 of 2 busy None\n\
dn^ Upgrade { t: 7, suite: 9 } at 1\n\
db^ 0 of 2 busy Some((1, 5))\n\
dd^ 0 of 2 busy None\n\
d^h 1 of 2 busy None\n\
d^n Exclusive at 2\n\
d^b 0 of 2 busy Some((1, 5))\n\
d^d 0 of 2 busy None\n\
^hh prefix 1 content 1 of [0, 1] from Some(0)\n\
^hn Exclusive at 2\n\
^hb 1 of 2 busy Some((1, 5))\n\
^hd 1 of 2 busy None\n\
^nh Exclusive at 2\n\
^nn Exclusive at 2\n\
^nb Exclusive at 2\n\
^nd Exclusive at 2\n\
^bh 1 of 2 busy Some((0, 5))\n\
^bn Exclusive at 2\n\
^bb 0 of 2 busy Some((0, 5))\n\
^bd 0 of 2 busy Some((0, 5))\n\
^dh 1 of 2 busy None\n\
^dn Exclusive at 2\n\
^db 0 of 2 busy Some((1, 5))\n\
^dd 0 of 2 busy None\n\
h^hh prefix 1 content 1 of [0, 1] from Some(0)\n\
h^hn Exclusive at 2\n\
h^hb 1 of 2 busy Some((1, 5))\n\
h^hd 1 of 2 busy None\n\
h^nh Exclusive at 2\n\
h^nn Exclusive at 2\n\
h^nb Exclusive at 2\n\
h^nd Exclusive at 2\n\
h^bh 1 of 2 busy Some((0, 5))\n\
h^bn Exclusive at 2\n\
h^bb 0 of 2 busy Some((0, 5))\n\
h^bd 0 of 2 busy Some((0, 5))\n\
hwhh prefix 1 content 1 of [1, 2] from Some(0)\n\
hwhn prefix 1 content 1 of [1, 2] from Some(0)\n\
hwhb 1 of 2 busy Some((2, 5))\n\
hwhd 1 of 2 busy None\n\
hwh^ Exclusive at 2\n\
hwnh prefix 1 content 1 of [1, 2] from Some(0)\n\
hwnn prefix 1 content 1 of [1, 2] from Some(0)\n\
hwnb 1 of 2 busy Some((2, 5))\n\
hwnd 1 of 2 busy None\n\
hwn^ Exclusive at 2\n\
hwbh prefix 1 content 1 of [2] from Some(0)\n\
hwbn prefix 1 content 1 of [2] from Some(0)\n\
hwbb 0 of 2 busy Some((1, 5))\n\
hwbd 0 of 2 busy Some((1, 5))\n\
hwb^ Exclusive at 2\n\
hwdh prefix 1 content 1 of [2] from Some(0)\n\
hwdn prefix 1 content 1 of [2] from Some(0)\n\
hwdb 0 of 2 busy Some((2, 5))\n\
hwdd 0 of 2 busy None\n\
hwd^ Exclusive at 2\n\
hw^h Exclusive at 2\n\
hw^n Exclusive at 2\n\
hw^b Exclusive at 2\n\
hw^d Exclusive at 2\n\
nhh^ Upgrade { t: 7, suite: 9 } at 1\n\
nhhw Upgrade { t: 7, suite: 9 } at 1\n\
nhn^ Upgrade { t: 7, suite: 9 } at 1\n\
nhnw Upgrade { t: 7, suite: 9 } at 1\n\
nhb^ Upgrade { t: 7, suite: 9 } at 1\n\
nhd^ Upgrade { t: 7, suite: 9 } at 1\n\
nh^h Exclusive at 2\n\
nh^n Exclusive at 2\n\
nh^b Exclusive at 2\n\
nnh^ Upgrade { t: 7, suite: 9 } at 1\n\
nnhw Upgrade { t: 7, suite: 9 } at 1\n\
nnn^ Upgrade { t: 7, suite: 9 } at 1\n\
nnnw Upgrade { t: 7, suite: 9 } at 1\n\
nnb^ Upgrade { t: 7, suite: 9 } at 1\n\
nnd^ Upgrade { t: 7, suite: 9 } at 1\n\
nn^h Exclusive at 2\n\
nn^n Exclusive at 2\n\
nn^b Exclusive at 2\n\
nbh^ Upgrade { t: 7, suite: 9 } at 2\n\
nbhw Upgrade { t: 7, suite: 9 } at 2\n\
nbn^ Upgrade { t: 7, suite: 9 } at 2\n\
nbnw Upgrade { t: 7, suite: 9 } at 2\n\
nbb^ 0 of 2 busy Some((1, 5))\n\
nbd^ 0 of 2 busy Some((1, 5))\n\
nb^h prefix 2 content 1 of [2] from Some(2)\n\
nb^n prefix 2 content 3 of [2] from Some(2)\n\
nb^b 0 of 2 busy Some((1, 5))\n\
nb^d 0 of 2 busy Some((1, 5))\n\
ndh^ Upgrade { t: 7, suite: 9 } at 2\n\
ndhw Upgrade { t: 7, suite: 9 } at 2\n\
ndn^ Upgrade { t: 7, suite: 9 } at 2\n\
ndnw Upgrade { t: 7, suite: 9 } at 2\n\
ndb^ 0 of 2 busy Some((2, 5))\n\
ndd^ 0 of 2 busy None\n\
nd^h prefix 2 content 1 of [2] from Some(2)\n\
nd^n prefix 2 content 3 of [2] from Some(2)\n\
nd^b 0 of 2 busy Some((2, 5))\n\
nd^d 0 of 2 busy None\n\
n^hh prefix 2 content 1 of [1, 2] from Some(1)\n\
n^hn prefix 2 content 3 of [1, 2] from Some(2)\n\
n^hb 1 of 2 busy Some((2, 5))\n\
n^hd 1 of 2 busy None\n\
n^nh prefix 2 content 3 of [1, 2] from Some(1)\n\
n^nn prefix 2 content 3 of [1, 2] from Some(1)\n\
n^nb 1 of 2 busy Some((2, 5))\n\
n^nd 1 of 2 busy None\n\
n^bh prefix 2 content 1 of [2] from Some(2)\n\
n^bn prefix 2 content 3 of [2] from Some(2)\n\
n^bb 0 of 2 busy Some((1, 5))\n\
n^bd 0 of 2 busy Some((1, 5))\n\
n^dh prefix 2 content 1 of [2] from Some(2)\n\
n^dn prefix 2 content 3 of [2] from Some(2)\n\
n^db 0 of 2 busy Some((2, 5))\n\
n^dd 0 of 2 busy None\n\
bh^h 1 of 2 busy Some((0, 5))\n\
bh^n Exclusive at 2\n\
bh^b 0 of 2 busy Some((0, 5))\n\
bhwh Exclusive at 2\n\
bhwn Exclusive at 2\n\
bhwb Exclusive at 2\n\
bhw^ Upgrade { t: 7, suite: 9 } at 1\n\
bnh^ Upgrade { t: 7, suite: 9 } at 1\n\
bnhw Upgrade { t: 7, suite: 9 } at 1\n\
bnn^ Upgrade { t: 7, suite: 9 } at 1\n\
bnnw Upgrade { t: 7, suite: 9 } at 1\n\
bnb^ Upgrade { t: 7, suite: 9 } at 1\n\
bnd^ Upgrade { t: 7, suite: 9 } at 1\n\
bn^h Exclusive at 2\n\
bn^n Exclusive at 2\n\
bn^b Exclusive at 2\n\
b^nh prefix 2 content 3 of [1, 2] from Some(1)\n\
b^nn prefix 2 content 3 of [1, 2] from Some(1)\n\
b^nb 1 of 2 busy Some((0, 5))\n\
b^nd 1 of 2 busy Some((0, 5))\n\
dh^h 1 of 2 busy None\n\
dh^n Exclusive at 2\n\
dh^b 0 of 2 busy Some((1, 5))\n\
dhwh Exclusive at 2\n\
dhwn Exclusive at 2\n\
dhwb Exclusive at 2\n\
dhw^ Upgrade { t: 7, suite: 9 } at 1\n\
dnh^ Upgrade { t: 7, suite: 9 } at 1\n\
dnhw Upgrade { t: 7, suite: 9 } at 1\n\
dnn^ Upgrade { t: 7, suite: 9 } at 1\n\
dnnw Upgrade { t: 7, suite: 9 } at 1\n\
dnb^ Upgrade { t: 7, suite: 9 } at 1\n\
dnd^ Upgrade { t: 7, suite: 9 } at 1\n\
dn^h Exclusive at 2\n\
dn^n Exclusive at 2\n\
dn^b Exclusive at 2\n\
d^nh prefix 2 content 3 of [1, 2] from Some(1)\n\
d^nn prefix 2 content 3 of [1, 2] from Some(1)\n\
d^nb 1 of 2 busy Some((2, 5))\n\
d^nd 1 of 2 busy None\n\
^hhw Exclusive at 2\n\
^hnh prefix 2 content 3 of [1, 2] from Some(1)\n\
^hnn prefix 2 content 3 of [1, 2] from Some(1)\n\
^hnb 1 of 2 busy Some((2, 5))\n\
^hnd 1 of 2 busy None\n\
^nhh prefix 2 content 1 of [1, 2] from Some(1)\n\
^nhn prefix 2 content 3 of [1, 2] from Some(2)\n\
^nhb 1 of 2 busy Some((2, 5))\n\
^nhd 1 of 2 busy None\n\
^nnh prefix 2 content 3 of [1, 2] from Some(1)\n\
^nnn prefix 2 content 3 of [1, 2] from Some(1)\n\
^nnb 1 of 2 busy Some((2, 5))\n\
^nnd 1 of 2 busy None\n\
^nbh prefix 2 content 1 of [2] from Some(2)\n\
^nbn prefix 2 content 3 of [2] from Some(2)\n\
^nbb 0 of 2 busy Some((1, 5))\n\
^nbd 0 of 2 busy Some((1, 5))\n\
^ndh prefix 2 content 1 of [2] from Some(2)\n\
^ndn prefix 2 content 3 of [2] from Some(2)\n\
^ndb 0 of 2 busy Some((2, 5))\n\
^ndd 0 of 2 busy None\n\
^bnh prefix 2 content 3 of [1, 2] from Some(1)\n\
^bnn prefix 2 content 3 of [1, 2] from Some(1)\n\
^bnb 1 of 2 busy Some((0, 5))\n\
^bnd 1 of 2 busy Some((0, 5))\n\
^dnh prefix 2 content 3 of [1, 2] from Some(1)\n\
^dnn prefix 2 content 3 of [1, 2] from Some(1)\n\
^dnb 1 of 2 busy Some((2, 5))\n\
^dnd 1 of 2 busy None\n\
hwhh^ prefix 1 content 1 of [1, 2] from Some(0)\n\
hwhn^ prefix 1 content 1 of [1, 2] from Some(0)\n\
hwhb^ 1 of 2 busy Some((2, 5))\n\
hwhd^ 1 of 2 busy None\n\
hwh^h prefix 1 content 1 of [1, 2] from Some(0)\n\
hwh^n prefix 1 content 1 of [1, 2] from Some(0)\n\
hwh^b 1 of 2 busy Some((2, 5))\n\
hwh^d 1 of 2 busy None\n\
hwnh^ prefix 1 content 1 of [1, 2] from Some(0)\n\
hwnn^ prefix 1 content 1 of [1, 2] from Some(0)\n\
hwnb^ 1 of 2 busy Some((2, 5))\n\
hwnd^ 1 of 2 busy None\n\
hwn^h prefix 1 content 1 of [1, 2] from Some(0)\n\
hwn^n prefix 1 content 1 of [1, 2] from Some(0)\n\
hwn^b 1 of 2 busy Some((2, 5))\n\
hwn^d 1 of 2 busy None\n\
hwbh^ prefix 1 content 1 of [2] from Some(0)\n\
hwbn^ prefix 1 content 1 of [2] from Some(0)\n\
hwbb^ 0 of 2 busy Some((1, 5))\n\
hwbd^ 0 of 2 busy Some((1, 5))\n\
hwb^h prefix 1 content 1 of [2] from Some(0)\n\
hwb^n prefix 1 content 1 of [2] from Some(0)\n\
hwb^b 0 of 2 busy Some((1, 5))\n\
hwb^d 0 of 2 busy Some((1, 5))\n\
hwdh^ prefix 1 content 1 of [2] from Some(0)\n\
hwdn^ prefix 1 content 1 of [2] from Some(0)\n\
hwdb^ 0 of 2 busy Some((2, 5))\n\
hwdd^ 0 of 2 busy None\n\
hwd^h prefix 1 content 1 of [2] from Some(0)\n\
hwd^n prefix 1 content 1 of [2] from Some(0)\n\
hwd^b 0 of 2 busy Some((2, 5))\n\
hwd^d 0 of 2 busy None\n\
hw^hh prefix 1 content 1 of [1, 2] from Some(0)\n\
hw^hn prefix 1 content 1 of [1, 2] from Some(0)\n\
hw^hb 1 of 2 busy Some((2, 5))\n\
hw^hd 1 of 2 busy None\n\
hw^nh prefix 1 content 1 of [1, 2] from Some(0)\n\
hw^nn prefix 1 content 1 of [1, 2] from Some(0)\n\
hw^nb 1 of 2 busy Some((2, 5))\n\
hw^nd 1 of 2 busy None\n\
hw^bh prefix 1 content 1 of [2] from Some(0)\n\
hw^bn prefix 1 content 1 of [2] from Some(0)\n\
hw^bb 0 of 2 busy Some((1, 5))\n\
hw^bd 0 of 2 busy Some((1, 5))\n\
hw^dh prefix 1 content 1 of [2] from Some(0)\n\
hw^dn prefix 1 content 1 of [2] from Some(0)\n\
hw^db 0 of 2 busy Some((2, 5))\n\
hw^dd 0 of 2 busy None\n\
nhhw^ Upgrade { t: 7, suite: 9 } at 1\n\
nhnw^ Upgrade { t: 7, suite: 9 } at 1\n\
nnhw^ Upgrade { t: 7, suite: 9 } at 1\n\
nnnw^ Upgrade { t: 7, suite: 9 } at 1\n\
nbhw^ Upgrade { t: 7, suite: 9 } at 2\n\
nbnw^ Upgrade { t: 7, suite: 9 } at 2\n\
ndhw^ Upgrade { t: 7, suite: 9 } at 2\n\
ndnw^ Upgrade { t: 7, suite: 9 } at 2\n\
bhwh^ Exclusive at 2\n\
bhwn^ Exclusive at 2\n\
bhwb^ Exclusive at 2\n\
bhw^h Exclusive at 2\n\
bhw^n Exclusive at 2\n\
bhw^b Exclusive at 2\n\
bnhw^ Upgrade { t: 7, suite: 9 } at 1\n\
bnnw^ Upgrade { t: 7, suite: 9 } at 1\n\
dhwh^ Exclusive at 2\n\
dhwn^ Exclusive at 2\n\
dhwb^ Exclusive at 2\n\
dhw^h Exclusive at 2\n\
dhw^n Exclusive at 2\n\
dhw^b Exclusive at 2\n\
dnhw^ Upgrade { t: 7, suite: 9 } at 1\n\
dnnw^ Upgrade { t: 7, suite: 9 } at 1\n\
";
