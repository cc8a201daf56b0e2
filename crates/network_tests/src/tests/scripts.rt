// 300 scripts of a fixed grammar, each after the capacity and the block that it is run with;
// `tests/graphs --table` prints them.
pub(super) const SCRIPTS: &str =
    r"1 1 mkfifo f; ! paste -s -d , - - >f & head -n 1 <x > o & wc f in;
2 1 mkfifo f; fold -bw 4 | cut -nb 2- >|p | tail y > f | uniq y < f;
1 1 ! fold|head;
1 1 mkfifo h; uniq -c y v <h > r&tr -ds a b | tr a b | cat -u > h | cut -nb 2- > s&tr a b < b;
2 1 mkfifo f; mkfifo g; mkfifo h; tee -i -- | cut -f 1 >|g & tee f h <x | fold f h < g >u;
1 1 mkfifo f h; tail -c +2 >h | paste -s -d , a - | cut -nb 2- <x >|f | cut -f 1 h > t&<f uniq -c;
2 2 mkfifo f h; < - tee h|cat -u|fold >|f & fold in > q & tee -i -- | < in cut -nb 2- h f
2 7 mkfifo h; tee >|h | tee a > o & ! paste - h -;
1 2 mkfifo f; tee f | paste - f;
5 7 mkfifo h; head > q&tee h | cat | paste - h | head -n 1;
2 7 mkfifo h; tee h|cat >|q|fold -bw 4 in >|out|<h paste -;
1 1 mkfifo f; tee f | paste - f | uniq -c;
5 2 mkfifo h; tee p >h & cat | paste - h <-;
1 1 mkfifo h; cut -f 1 | wc -lw > h&cat a a a a a a a h a a a a a a a a a a a a a a a a a a a a a a a
1 1 mkfifo g; tee g | paste - - g - > o&< a tr a b | tee -a <in > v&uniq y >|q | cut -nb 2-;
5 4096 head -n 1;
16 7 cat | cut -f 1 b | paste -s -d , <in;
1 1 tail | cat < a > s&cut -f 1;
1 1 mkfifo g; tail -c +2 >> g | tail b < g > u&! tee > p&cat -u in;
5 2 tr a b;
1 1 mkfifo h; > r <x paste - h - -&! tee h > u&uniq -|tr a b;
5 1 ! tail;
16 7 wc -lw x > v & wc -lw -|cat y|tee -a|> s < b tee & tail
5 1 tee -a | head -n 1
16 7 mkfifo g; tail -c +2 - >g|tee <x > r&tr a b <in | fold -bw 4 x | tee | tail -c +2 g;
2 7 tr a b | fold -bw 4 <x | tee -a | wc -lw
2 2 mkfifo f; tail >f | uniq -c f | wc -lw;
5 4096 mkfifo g; cat -u | paste - <a | tee > p & paste - - g | cat | <a tee g
2 7 tee t < in > u & tail -c +2
1 4096 mkfifo f; mkfifo h; tee h|tee f|head|paste - - - f > u & ! paste - h
16 2 mkfifo f; tee f <-|paste - f -
5 4096 ! > s < x tee & head | paste | tr -ds a b <in | cut -nb 2-;
16 7 ! tail y|fold;
5 2 mkfifo f; tee f < - > t & paste - f;
5 4096 mkfifo f; tee f < b | wc -lw | paste - - < f;
16 2 mkfifo f h; tee f|tee -i --|uniq - h > q & paste - h f > o | tr -ds a b < b
1 1 paste | tr -ds a b | tail - > u | tee -a;
5 4096 mkfifo g; mkfifo h; tee -i -- h >> g | wc -lw - > r & head <a|fold h g
16 2 mkfifo g; > out tee g & paste - - g -
2 1 head -n 1 > r & paste - -;
1 1 cut -f 1 x > v & cut -nb 2- | tee -i --;
1 1 mkfifo f g; tail -c +2 >> f | tr -ds a b < a >> g & > u <f tee -a & tee <g | tail
2 4096 paste - a;
1 7 mkfifo f; > q tr a b & paste -s -d , - - | tee f v | tr a b < - | paste - - - <f;
16 1 tee -i -- <b | tee -i -- | fold -bw 4 x > t&uniq | tee > out&tail -c +2
2 1 >p cat x;
1 2 mkfifo h; tee h|cut -nb 2- > v & paste - h;
5 2 mkfifo g; tee g | paste - g > t&wc -lw
2 7 mkfifo f h; tee f > h | tail y | tee -i -- <b > o&tail | paste -s -d , - - | fold x f h
1 1 mkfifo g; tee g u <- | head -n 1 g -;
5 7 tail;
1 7 paste - -|tail|cut -nb 2- < in|fold > s & cut -f 1 | head
1 1 cat -u | tee < b | tr a b <- > t & fold -bw 4|head -n 1 - >|a;
5 2 uniq -c x | cat in >> t | cat -u
1 7 mkfifo g; > - tee g | >s paste - g -;
2 1 mkfifo f; mkfifo g; >> f paste - | fold -bw 4 b | cat -u | tee g <b > o&paste -s -d , a a a a a a a a a a a a a a a a a a a a a a a a a a a a a a a a > v&head x g <f;
1 1 mkfifo h; head <b > h | <h paste in - - | cut -f 1
2 2 mkfifo g h; tee h > g & paste - g - h
1 1 fold;
1 1 ! cat -u|> - head|>|p tee;
1 1 uniq > out & tail a|head b|wc -lw >> s|tr -ds a b <x
1 2 wc > u & ! head | cat -u | fold x | cat -u
1 1 mkfifo f; >f tee | paste - - f <x;
5 1 mkfifo f; tee f q|head -n 1|paste - f - - > u;
5 7 uniq x|tee -a;
2 4096 mkfifo h; cat -u h > v & tee > t & fold -bw 4 y >|h & uniq
1 4096 mkfifo h; ! tee h > u&< h paste - - -;
16 1 mkfifo f; cut -nb 2- x | tee f | paste - f > s&tr -ds a b;
1 1 mkfifo h; fold -bw 4 a >h | paste - > s & ! head -n 1 y|uniq h
1 4096 cut -f 1 | tr a b < in | uniq b | tail -c +2;
2 4096 mkfifo h; tee h <b|paste - - h -|tail -c +2 a|fold -bw 4 x >s
5 1 fold > q | tr -ds a b > t & fold -bw 4;
1 1 ! cut -nb 2- a | cat y > o & uniq;
1 1 mkfifo f; uniq | > out wc -lw - f & tee -a f
1 1 cut -nb 2- > u & wc in;
16 2 mkfifo h; paste -s -d , <x > h | >in paste - | tee -a < h
1 1 tee -a | wc -lw x;
5 4096 cat a | paste -s -d , - - | wc -lw;
1 1 head a | head -n 1 > q | < b paste - - | uniq > v;
1 1 cut -f 1 a a a a a a a a a a a a a a a a a a a a a a a a a a a a a a > o & ! paste -s -d , - - | tr a b;
16 1 paste -s -d , - | > r tail -c +2 b & tr a b;
2 4096 mkfifo h; tee h out | tee -a | wc -lw in | paste - h -;
1 1 mkfifo g; ! cat > g | paste -s -d , - g
5 2 cut -f 1 a a a a a a a a a a a a a a a a a a a a a a a a a a a a a a a a < - > r&tr a b > s&tee -i --
1 1 mkfifo f; ! uniq | tail > q&tee f|paste - - f > out&tee -a|tail;
16 2 mkfifo g; fold -bw 4 <in > g | wc -lw - | tail -c +2 <g
16 1 fold a a a a a a a a a a a a a a a a a a a a a a a a a a a a a a a|tr a b > u & ! cat -u|wc -lw;
1 1 fold <a > -;
1 1 mkfifo f; fold y | >|f < in cut -nb 2- & cut -f 1 f > out & head -n 1;
1 1 mkfifo g; tee g | > u tee & ! wc -lw|cut -nb 2- > s & paste - g
2 1 mkfifo g; mkfifo h; tee h >> g|>|o < g paste - - - h;
2 1 mkfifo h; tee h | tail h <b;
2 4096 mkfifo h; tee h r | paste - - h -;
2 4096 mkfifo g; tail -c +2 - > s & tail -c +2 a <g > g|cat
1 4096 wc | tee <in > r & wc
2 4096 mkfifo g h; >|g <h tail -c +2 | tee < in > r & wc -lw | cut -f 1 y | >h cut -f 1 | wc -lw g;
1 1 < - tail | cut -nb 2- > p&paste -s -d , a
2 4096 > o wc -lw & head;
1 2 mkfifo h; cut -f 1 b a a a a a a a a a a a a a a a a a a a a a h a a a a a a a a a > r&paste -s -d , >> h|tee <-
16 4096 mkfifo f; mkfifo g; tee g >f|head a|paste - g f;
1 1 mkfifo g; mkfifo h; tee g > h & paste - h g
1 1 mkfifo f; mkfifo g; tee f <- | uniq | fold >|g | head -n 1 g f;
16 2 < a tee|cut -nb 2- > p & wc -lw > t;
16 4096 mkfifo g; wc -lw >|g | head in | paste - - | cat <g
1 1 mkfifo h; tail -c +2 x >h | > t head -n 1 & wc h;
2 1 mkfifo f; tee >f | cat -u > t & uniq -c|paste - - f - <a >> out;
1 1 mkfifo f; ! wc >f|> out fold & wc f
2 1 mkfifo f; paste|> q cut -f 1&tr a b | tee f | paste - - f -;
1 1 tee -i -- | tee;
5 2 mkfifo f g h; tee h <g >|f | tee g > out&tee in | paste - - h <f;
1 1 mkfifo h; uniq -c >> out & tee h|paste - h|tee -i -- < -;
1 1 ! paste > s;
16 7 mkfifo f; mkfifo g; tee g < a >|f | paste - g f -;
16 4096 mkfifo h; ! cat -u x > h|tee -i -- t|tail <h|uniq;
1 1 mkfifo h; tr a - > r & ! tee h | paste - h;
2 4096 ! cut -f 1|cat
1 1 mkfifo f; tee -a f | tail f;
5 2 mkfifo g; ! tee >g|<g paste - -;
1 1 <a tee | uniq < x > t&tee -a < -
2 7 fold;
1 7 tee s <-|tee > out & cut -nb 2-;
5 4096 mkfifo h; wc h b|tee -i -- > v & >|h wc & fold -bw 4 -;
2 7 mkfifo f; tee f | paste - - f;
16 1 mkfifo g h; tee -i -- g h | paste h g
1 1 mkfifo g; cut -f 1 a > g | uniq | wc -lw | > v uniq&tee < g
5 2 mkfifo h; <- paste - -|tr -ds a b >h|fold a h > v&! tee -i -- < in|cut -nb 2- a;
5 4096 mkfifo f; mkfifo g; tee g | tr a b | wc -lw >|f | tee u > t & paste - g - - < f
5 4096 mkfifo h; cat > o & tee h | paste - h | uniq in a | cut -f 1 y;
1 1 mkfifo h; ! < a tee h r|tr a b <h
5 2 tee -a < -
1 1 mkfifo f; mkfifo h; tee f h a | cat | paste - - h f
5 7 mkfifo f; fold x <f >f | tee -a <a | >|- paste - in - | tee -a < b
1 1 uniq -c -
1 1 mkfifo g; uniq -c | tee > g | paste - - g > q&! tee -a < b | fold
1 1 tail -c +2 in | wc -lw > p & cut -f 1 > t
16 7 mkfifo g; tr -ds a b >g | cat > s & cat - | head | paste | < g tee -i --
16 7 mkfifo f; tee f | > v <x uniq -c & head -n 1 | > u tee -a & paste - f - -;
1 1 mkfifo f; mkfifo g; ! >f tee g|tee -i -- > r&wc f g;
5 1 mkfifo h; tr -ds a b < in >|h & < h tee|tee
1 2 mkfifo f g; tee f g u | paste - g - f
1 1 mkfifo f; uniq >> f | wc -lw > t & tr -ds a b > p | cat -u > s & fold f;
1 1 mkfifo g; ! tail >|g|tee -a < g;
16 1 tee | >> s tail;
2 1 mkfifo f; mkfifo g; mkfifo h; >|f <b tr a b|>g uniq f|> o <x paste - h - -&tee q >|h|tee < g|<a tr -ds a b;
2 1 mkfifo g; mkfifo h; tee g h > t&! paste - - h - < g > a
16 2 mkfifo f h; ! >|f head -n 1 y h|head > h|tail -c +2 a|< f tee;
1 1 mkfifo f h; tee f h o|paste - f h >|u;
2 1 mkfifo f; tee > f | tail | cat > p & paste -s -d , in f;
5 2 mkfifo f; cut -f 1|head -n 1 >f&> u cat -u f a&wc;
1 1 paste -s -d ,|tail -c +2 y|<in tee -i --|tr -ds a b > u & uniq
1 1 uniq;
1 1 mkfifo f; tee f | fold | tee | paste - f -
1 1 mkfifo f g; fold y >|f | wc -lw a > g&paste -s -d , - - | head < g | wc x <f
5 4096 mkfifo g h; ! tee g|uniq > h & ! paste - g h;
1 1 mkfifo g; tee g | paste - g
5 1 fold b | head -n 1 | tee -a <b | paste y > q & paste - | wc -lw;
2 2 mkfifo h; >|h cut -nb 2- | cut -nb 2- h | cut -f 1 | cut -nb 2-;
16 1 tr -ds a b <x|uniq > o & ! wc | cut -f 1 > out & tr -ds a b < -|fold in;
1 1 mkfifo f; wc f | paste -s -d , b - > u & cut -nb 2- a >> f | paste -s -d , | head y | tail -c +2
1 1 mkfifo f; cat -u a > u&uniq a f > o&tee < f|tee -a|head a|wc -lw -;
2 2 mkfifo f; tee f|fold|tr a b|paste - f;
1 1 tee -a < - > p & tee -i -- in;
1 1 mkfifo f; uniq -c x <f > t & fold y|head -n 1 in >f|cut -nb 2-|tail;
5 2 cat -u > v & ! tee -i -- <b | tr a b <in > out & tr -ds a b | head | uniq;
1 1 mkfifo f; mkfifo g; tr -ds a b >f & paste -s -d , - > s & <- tee g|tee|paste - - g|fold f
2 1 mkfifo f; ! tee -i -- >f | paste -s -d , - - < a | uniq -c > p & tail a <f;
5 2 mkfifo g; mkfifo h; tee h <x >g | paste - h - - g;
1 1 fold -bw 4 - > u & tee -i -- | cut -f 1;
5 2 mkfifo h; ! tee h | head - h;
5 1 mkfifo h; paste - - h <a|uniq -c < - >> h&tr -ds a b < x;
1 1 mkfifo h; ! tee h > o & tee -i -- <b | paste - h;
1 1 fold > p&fold -bw 4 in|tee > q&cut -f 1 > o&! cut -f 1 y;
5 2 mkfifo f; tee f < a|paste - f;
1 1 mkfifo g; uniq -c >> g|tr a b <-|paste - -|fold > o & cat -u -|wc g;
2 4096 wc x | cut -nb 2-;
2 1 mkfifo g; tail -c +2 >g|cat g;
1 1 mkfifo f; wc -lw a > f | head -n 1 f
1 1 tr -ds a b | cat y | wc;
1 1 mkfifo g; paste - g|uniq -c|head <b > p&! tee >> g | paste -s -d , -
1 1 mkfifo g; ! tee r >|g|cut -nb 2- in|paste - g -
5 1 tail > -|head -n 1 x;
2 2 mkfifo h; tail b > h | head -n 1 | wc x h;
16 2 fold | paste - -
2 7 mkfifo g; ! tee g|> in paste - - - g;
16 2 mkfifo g; ! paste y - >|g|fold -bw 4 > q&head -n 1 a a a a a a a a a a a a a a a a a a a a a a a a a a a a a a a > out&tail -c +2 a > r&tee -a <- | tee < g;
16 2 tr a b|tr a b < -|paste - -|uniq -c b > out&tee -a < in|cut -f 1;
1 1 mkfifo f; tee|tee f p|paste - - f - <b;
1 7 mkfifo f; mkfifo g; tee g | tee -i -- f | tee -a | <f paste - - g -;
1 1 mkfifo g; mkfifo h; tee g h|paste - h g;
16 4096 mkfifo g h; wc -lw | tee g h a > v&! paste - h - <g > s
5 1 mkfifo h; ! tee h | paste -s -d , - - | paste - h | wc -lw;
2 7 mkfifo g; mkfifo h; >|h tee|uniq >g & head -n 1 g h;
1 7 mkfifo f; ! tee f | paste - - f;
16 2 mkfifo h; tee -i -- h | tee -i -- <a | paste - | fold -bw 4 <a > t&cat -u|tail -c +2 h;
1 7 mkfifo h; ! tail -c +2 > p & tee h <b|head - h|fold|cat -u
2 1 fold -bw 4|wc -lw a|cat
1 4096 mkfifo f; tr -ds a b < in > f|tr a b < a > r|tee -a > o & cat -u f
1 1 mkfifo h; cut -f 1 b >|h | fold in <h > r & cut -f 1 > v;
16 4096 mkfifo g h; ! tee g >> h & paste - h g;
1 1 tr -ds a b > o & paste -;
1 1 cut -f 1 | cut -nb 2- - | tail
1 1 mkfifo g; tee g t|tee > q & tee -i -- <x | uniq -c | paste - g -;
1 7 cat y|tee|tee <a > v & head -n 1 x > o & tr -ds a b | cat -u;
1 1 mkfifo f; cut -nb 2- >> f & cat|tr a b < x|tee < - > q & head -n 1 f
16 2 mkfifo h; tee h o <- | cat -u > v & head < a|cut -f 1|paste -|paste - h;
1 1 uniq -c|> p tail & fold -bw 4;
1 2 mkfifo f g; tee g > f & tail | paste - g - - <f;
1 1 mkfifo g h; tee g h <- >|p | wc x | fold -bw 4 y | fold <in > u & tr a b | paste - - - h < g;
1 1 mkfifo h; tail -c +2 < h|< a tee|> h paste -s -d , - -&tr -ds a b
1 1 mkfifo g h; uniq h >|g | cat >h | tr -ds a b > o & tee -a < x | tr a b <g;
5 7 wc | wc;
1 1 cat > q&cat -u;
2 1 mkfifo g; ! cut -f 1 x | >|g tail | head g | tr -ds a b
1 7 fold -bw 4 >|r | paste -s -d , - | fold -bw 4 > v & ! tr -ds a b;
5 7 mkfifo g; tee > g & uniq -c | paste - g;
1 1 mkfifo f; tee >|f & < b paste - f - -;
1 1 tr -ds a b <b | uniq > out&tee > o&wc
1 1 mkfifo h; tee -i -- h < - | tee < h | cat -u a a a a a a a a a a a a a a a a a a a a a a a a a a a a a a a a;
1 1 mkfifo f; ! tee f | head > out & paste - - f - <in | tail | tr -ds a b;
1 1 mkfifo f; tee f | head -n 1 a a a a a a a a a a a a a a a a a a a a a a a a a a a a a a a a > p & ! <a tee r|paste - - f
16 2 mkfifo h; tee h > p&cut -f 1 x | tr -ds a b < b | head <h;
5 2 tee -a <b | wc -lw > u&! tee -a
1 4096 uniq|wc > o&fold | tail -c +2 | paste >|-
1 1 mkfifo g h; ! tee -i -- g h r > s & cat -u | cut -f 1 b g h;
16 4096 mkfifo f h; tee h >f&tail -c +2 y | paste - h f;
1 1 fold -bw 4|fold > u & tee < b | tr a b > - | tee -a;
16 4096 mkfifo f; mkfifo g; tee f > p & tee g | paste - g | paste - < f;
1 1 tail -c +2 | <a tr a b;
2 2 wc -lw
16 1 mkfifo f; tee f | cat | paste - f
5 7 mkfifo f; tee f >u | paste - - <f
5 4096 head a
2 7 tr a b <in | fold -bw 4 in >q;
1 1 mkfifo f; cat -u b >|f | cut -nb 2- f
1 1 mkfifo g; mkfifo h; tail g < a >h|tr -ds a b >g|paste -s -d , - - h;
1 1 tee out|tee -i --|paste -s -d , - < in|fold > s & tee -a t | wc -lw
1 1 mkfifo g; uniq | >|g wc & uniq > r & cut -nb 2- g;
1 1 ! cat -u | wc b
1 1 mkfifo g; ! tee g | paste - <g;
1 1 tee -i --|uniq;
1 1 cat | cat -u | paste
1 1 mkfifo h; tee h <x > s & tee -a > r & paste | > out < in cat & ! fold -bw 4 b|paste - h;
1 1 mkfifo f h; tee h >> f | paste - h <f
1 1 cut -f 1 > out & tee -a < x | paste < in | tee | cut -f 1 a a a a a a a a a a a a a a a a a a a a a a a a a a a a a a
1 1 cat -u
16 2 mkfifo g; mkfifo h; >h tee g | paste - - - g h;
1 1 tail -c +2 > r & ! cut -nb 2- b;
1 1 tr -ds a b
2 4096 mkfifo h; uniq > h&tail -c +2|head -n 1 y >> u|tail|cat y h
1 1 mkfifo h; fold|<in tee h|paste - - h
1 1 mkfifo g; cut -nb 2- a > g|tr -ds a b < g
1 1 > o paste -s -d , - - & paste -s -d , - | tee -i --;
2 4096 mkfifo g; tee -i -- g | wc -lw | > o paste -s -d , -&paste -s -d , x g -
16 4096 mkfifo g; tee g u|paste - g -;
2 7 mkfifo g; mkfifo h; tee g > h|paste - g h
2 4096 mkfifo h; tail -c +2 >> h & ! >s cut -f 1 in|wc <in|<h tee -a
1 1 mkfifo f g; tee f g|paste - f g;
5 4096 uniq;
1 1 mkfifo h; ! fold >h & tail in | tail -c +2 | head -n 1 in <h;
1 1 tr a b <- > r & cut -f 1 -|tail -c +2|> o head in & tr -ds a b <in > s
1 1 mkfifo f; mkfifo g; ! paste - - >> f & <- tee g | wc -lw f b <g
1 1 mkfifo h; ! tee h < b|tee > out&wc a a a a a a a a a a a a a a a a a a a a a a a a a a a a a a a a|head -n 1|paste - <h|fold -bw 4;
1 4096 uniq | tail -c +2 | head
5 7 uniq
1 1 mkfifo f; mkfifo g; tee g >|f|tail -c +2 y|paste - f|paste -s -d , g - b -;
1 1 mkfifo f; tee f | paste - f - -;
1 1 mkfifo f h; ! >f tee h|paste - h f -;
5 4096 cat -u -|fold > s & tee o <b | cat > q & head -n 1 a | cut -f 1;
1 1 mkfifo g; tee >> g | paste - - g >|o;
1 1 mkfifo f; tee -i -- < a >f | cut -nb 2- f;
1 7 tr a b <a|wc -lw y > s & ! uniq in | tee -i -- | head | wc -lw <in
16 1 mkfifo f; paste b - | tr -ds a b >|f | cat f | cat;
1 1 mkfifo h; cat >> h | cut -nb 2- x | tr -ds a b <h
16 7 mkfifo f; tee f | uniq x | fold -bw 4 < x | head > t & cut -nb 2- > out & >|q <b paste - f;
1 2 head a a a a a a a a a a a a a a a a a a a a a a a a a a a a a a | tail;
2 2 mkfifo g; paste -s -d , - - > out & tr -ds a b < - >|g | tr -ds a b <g;
2 4096 mkfifo g; wc >> g & tee -a|cut -f 1 g >v;
5 1 mkfifo h; cat >|h | tee | > o tee p & ! tail|wc a h;
1 1 mkfifo h; ! uniq -c >h|fold > q & ! tee -i -- < a | cut -nb 2- h
5 1 uniq -c
16 7 mkfifo g h; tee g >h | paste - h g
2 1 mkfifo h; tee h a | tail | paste - h - <-;
16 1 mkfifo h; ! tr a b >|h|uniq -c h >> v
16 7 mkfifo h; tee | tail -c +2 < b | >|h fold | fold -bw 4 h;
1 1 mkfifo f h; >|f tee h | head x a a a a a a a a a a a a a a a a a a a a a a a a a a a a a a a > t&! paste a - < f | fold -bw 4 | paste - h
16 1 tee <-;
1 4096 mkfifo f; mkfifo g; wc -lw b|tee f g|paste - f - - g|paste - a;
1 1 mkfifo f h; ! tee h >> f | cut -f 1 > o & paste - h f -
2 4096 mkfifo f; >f tr a b & paste - < f > p & tail -c +2 x
1 1 mkfifo f g; tee f g|paste - f < g
2 2 mkfifo f g h; cat - >|f | tee h >g & paste - - - g h <f;
1 4096 mkfifo g; uniq | wc in > o&tee g|paste - - g -|tee -i --
1 1 paste - - | cut -nb 2- - | head -n 1 <x | cat -u b > s&cat -u >-|wc -lw;
5 4096 mkfifo f; mkfifo g; >g < in paste -s -d ,&tail -c +2 >f|tee < a|uniq -c f < g
2 7 mkfifo g; tee g | paste - - g;
16 1 uniq -c;
2 2 uniq -c|tr -ds a b;
16 4096 mkfifo g; mkfifo h; tee g h | tee | wc <x > o&! <g paste - h -;
2 4096 mkfifo f; ! tee f | tail x | paste - f | fold y a a a a a a a a a a a a a a a a a a a a a a a a a a a a a a > p & uniq -c | >|s fold x;
1 4096 ! tee -a o | > v uniq -c & cat a | wc a";
