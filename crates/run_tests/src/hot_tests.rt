//! Scripts with keys that become hot.
use crate::serving::assert_all_served;

// Each case is a script behind the numbers of workers and shards and further words, with its status and report, as the slow
// program has it: a key that becomes hot, and one that goes back; five keys that ask for four places; a key that takes the
// place of one that goes back at the same close; a record that goes back beside a fork; one that is touched in some epochs
// alone; and the least and the greatest threshold.
const HOT: &str = "\
== 1 --shards 2 --hot 2
0 put 5 6162
0 get 5
epoch
0 get 5
-> 0
epoch 0 certified 2
0.3 v0 put 5 6162
0.5 v0 get 5 6162
epoch 1 certified 1
1.6 v0 get 5 6162
done 2
== 1 --shards 2 --hot 2
0 put 5 6162
0 get 5
epoch
epoch
0 get 5
-> 0
epoch 0 certified 2
0.3 v0 put 5 6162
0.5 v0 get 5 6162
epoch 1 certified 0
epoch 2 certified 1
2.6 v0 get 5 6162
done 3
== 1 --shards 2 --hot 1
0 put 1 01
0 put 2 02
0 put 3 03
0 put 4 04
0 put 5 05
epoch
0 get 1
0 get 2
0 get 3
0 get 4
0 get 5
-> 0
epoch 0 certified 5
0.3 v0 put 1 01
0.5 v0 put 2 02
0.7 v0 put 3 03
0.9 v0 put 4 04
0.11 v0 put 5 05
epoch 1 certified 5
1.9 v0 get 1 01
1.11 v0 get 2 02
1.13 v0 get 3 03
1.15 v0 get 4 04
1.17 v0 get 5 05
done 2
== 1 --shards 2 --hot 1
0 put 1 01
0 put 2 02
0 put 3 03
0 put 4 04
epoch
0 get 1
0 get 2
0 get 3
0 put 6 06
epoch
0 get 4
0 get 6
-> 0
epoch 0 certified 4
0.3 v0 put 1 01
0.5 v0 put 2 02
0.7 v0 put 3 03
0.9 v0 put 4 04
epoch 1 certified 4
1.9 v0 get 1 01
1.11 v0 get 2 02
1.13 v0 get 3 03
1.15 v0 put 6 06
epoch 2 certified 2
2.13 v0 get 4 04
2.15 v0 get 6 06
done 3
== 1 --shards 2 --hot 2
0 put 8 08
0 get 8
epoch
0 put 9 09
epoch
0 get 8
0 get 9
-> 0
epoch 0 certified 2
0.3 v0 put 8 08
0.5 v0 get 8 08
epoch 1 certified 1
1.6 v0 put 9 09
epoch 2 certified 2
2.6 v0 get 8 08
2.8 v0 get 9 09
done 3
== 1 --shards 2 --hot 1
0 put 5 61
epoch
0 get 5
epoch
epoch
0 get 5
epoch
0 get 5
-> 0
epoch 0 certified 1
0.3 v0 put 5 61
epoch 1 certified 1
1.6 v0 get 5 61
epoch 2 certified 0
epoch 3 certified 1
3.6 v0 get 5 61
epoch 4 certified 1
4.6 v0 get 5 61
done 5
== 1 --shards 2 --hot 1
0 get 5
epoch
0 get 5
-> 0
epoch 0 certified 1
0.3 v0 get 5 none
epoch 1 certified 1
1.6 v0 get 5 none
done 2
== 1 --shards 2 --hot 1000000
0 get 5
0 get 5
epoch
0 get 5
-> 0
epoch 0 certified 2
0.3 v0 get 5 none
0.5 v0 get 5 none
epoch 1 certified 1
1.5 v0 get 5 none
done 2
";

#[test]
fn hot_keys_are_served(rt: HostRuntime) {
    assert_all_served(&rt, rt.alloc(), HOT, 8);
}
